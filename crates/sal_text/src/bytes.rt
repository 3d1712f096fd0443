//! Kinds of bytes.

ghost use Rattle.std.specs.Prelude.{◌≡◌, ◌≤◌, length};
ghost use Rattle.sal_ast.specs.Lexemes.{is_letter, is_digit, is_name_byte};
ghost use Rattle.sal_text.specs.Tokens.{is_blank};
ghost use Rattle.sal_text.specs.Values.{is_escape};
ghost use Rattle.sal_text.specs.code.Scanning.{run_length};

/// Space, tab, carriage return and line feed.
pub fn is_blank(byte: u8) -> bool
    ensures { result ≡ is_blank byte }
{
    byte == b' ' || byte == b'\t' || byte == b'\r' || byte == b'\n'
}

pub fn is_letter(byte: u8) -> bool
    ensures { result ≡ is_letter byte }
{
    byte >= b'A' && byte <= b'Z' || byte >= b'a' && byte <= b'z' || byte == b'_'
}

pub fn is_digit(byte: u8) -> bool
    ensures { result ≡ is_digit byte }
{
    byte >= b'0' && byte <= b'9'
}

fn is_name_byte(byte: u8) -> bool
    ensures { result ≡ is_name_byte byte }
{
    is_letter(byte) || is_digit(byte)
}

/// Whether a backslash before the byte is an escape.
pub fn is_escape(byte: u8) -> bool
    ensures { result ≡ is_escape byte }
{
    byte == b'b'
        || byte == b't'
        || byte == b'n'
        || byte == b'f'
        || byte == b'r'
        || byte == b'"'
        || byte == b'\''
        || byte == b'\\'
}

/// How many bytes of a name stand at the front.
pub fn name_length(text: &[u8]) -> usize
    ensures value { result ≡ run_length is_name_byte text.now }
    ensures within { result ≤ length text.now }
{
    'bytes: for i in 0..text.len() {
        if !is_name_byte(text[i]) {
            return i;
        }
    }
    text.len()
}

/// How many digits stand at the front.
pub fn digits_length(text: &[u8]) -> usize
    ensures value { result ≡ run_length is_digit text.now }
    ensures within { result ≤ length text.now }
{
    'bytes: for i in 0..text.len() {
        if !is_digit(text[i]) {
            return i;
        }
    }
    text.len()
}
