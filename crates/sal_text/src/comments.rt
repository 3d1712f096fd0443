//! Comments.

ghost use Rattle.std.specs.Prelude.{◌≡◌, ◌≤◌, ◌&&◌, nat_eq, length, IfSome};
ghost use Rattle.sal_text.specs.Tokens.{is_in_line, begins_slash};
ghost use Rattle.sal_text.specs.code.Scanning.{run_length, block_length};

/// How many bytes of a line are left.
pub fn line_length(text: &[u8]) -> usize
    ensures value { result ≡ run_length is_in_line text.now }
    ensures within { result ≤ length text.now }
{
    'bytes: for i in 0..text.len() {
        if text[i] == b'\n' {
            return i;
        }
    }
    text.len()
}

fn begins_slash(text: &[u8]) -> bool
    ensures { result ≡ begins_slash text.now }
{
    match text {
        [] => false,
        [first, ..] => *first == b'/',
    }
}

fn ends_here(byte: u8, behind: &[u8]) -> bool
    ensures { result ≡ (nat_eq byte 42 && begins_slash behind.now) }
{
    byte == b'*' && begins_slash(behind)
}

/// How many bytes stand up to the end of the first `*/`, with it.
pub fn block_length(text: &[u8]) -> Option<usize>
    ensures value { result ≡ block_length text.now }
    ensures within { IfSome result (λ n. n ≤ length text.now) }
{
    'bytes: for i in 0..text.len() {
        if ends_here(text[i], &text[i + 1..]) {
            return Some(i + 2);
        }
    }
    None
}
