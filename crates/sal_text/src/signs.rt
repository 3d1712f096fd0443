//! Signs.

ghost use Rattle.std.specs.Prelude.{◌≡◌};
ghost use Rattle.sal_text.specs.code.Scanning.{short_sign, long_sign, short_length, sign_length};

fn is_short_sign(byte: u8) -> bool
    ensures { result ≡ short_sign byte }
{
    matches!(
        byte,
        b'{' | b'}'
            | b'('
            | b')'
            | b'['
            | b']'
            | b';'
            | b','
            | b'.'
            | b'='
            | b'<'
            | b'>'
            | b'+'
            | b'-'
            | b'*'
            | b'/'
            | b'%'
            | b'!'
            | b'@'
            | b':'
    )
}

fn is_long_sign(byte: u8, next: u8) -> bool
    ensures { result ≡ long_sign byte next }
{
    byte == b'=' && next == b'='
        || byte == b'!' && next == b'='
        || byte == b'<' && next == b'='
        || byte == b'>' && next == b'='
        || byte == b'&' && next == b'&'
        || byte == b'|' && next == b'|'
        || byte == b'<' && next == b'-'
}

fn short_length(byte: u8) -> usize
    ensures { result ≡ short_length byte }
{
    if is_short_sign(byte) { 1 } else { 0 }
}

/// How many bytes the longest sign at the front has.
pub fn sign_length(text: &[u8]) -> usize
    ensures { result ≡ sign_length text.now }
{
    match text {
        [] => 0,
        [byte] => short_length(*byte),
        [byte, next, ..] => {
            if is_long_sign(*byte, *next) {
                2
            } else {
                short_length(*byte)
            }
        }
    }
}
