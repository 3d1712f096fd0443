//! Lines cut into words.

ghost use Rattle.std.specs.Prelude.{◌≡◌, ◌∷◌, [], false, true, length, nat_eq, nat_lt, MatchOption};
ghost use Rattle.std.specs.Option.{option_copied};
ghost use Rattle.sal_schedule.specs.Lines as spec;
ghost use Rattle.sal_schedule.specs.code.Words.{IsFirstSpace, words_left, rest_words};

/// What a byte of a line stands in.
#[derive(Clone, Copy, Debug, PartialEq, Eq)]
pub enum Mode {
    /// Outside quotes.
    Plain,
    /// Inside quotes.
    Quoted,
    /// Inside quotes, after a backslash.
    Escaped,
}

fn next_mode(mode: Mode, byte: u8) -> Mode
    ensures { result ≡ spec.next_mode mode byte }
{
    match mode {
        Mode::Plain => {
            if byte == b'"' {
                Mode::Quoted
            } else {
                Mode::Plain
            }
        }
        Mode::Quoted => {
            if byte == b'"' {
                return Mode::Plain;
            }
            if byte == b'\\' {
                Mode::Escaped
            } else {
                Mode::Quoted
            }
        }
        Mode::Escaped => Mode::Quoted,
    }
}

fn separates(mode: Mode, byte: u8) -> bool
    ensures { result ≡ spec.separates mode byte }
{
    match mode {
        Mode::Plain => byte == b' ',
        Mode::Quoted => false,
        Mode::Escaped => false,
    }
}

/// Where the space after the first word stands, if there is one.
#[tactic(auto, using(crate::proofs::Cutting::goes_on, crate::proofs::Cutting::space_here, crate::proofs::Cutting::no_space))]
fn first_space(line: &[u8]) -> Option<usize>
    ensures { IsFirstSpace line.now result }
{
    let mut mode = Mode::Plain;
    for (at, byte) in line.iter().enumerate() {
        if separates(mode, *byte) {
            return Some(at);
        }
        mode = next_mode(mode, *byte);
    }
    None
}

/// The first word, and what follows the space after it.
#[tactic(auto, using(crate::proofs::Cutting::cut_at, crate::proofs::Cutting::one_word))]
pub fn split_word(line: &[u8]) -> (&[u8], Option<&[u8]>)
    ensures { spec.words_of line.now ≡ result.0.now ∷ rest_words result.1 }
{
    match first_space(line) {
        Some(at) => (&line[..at], Some(&line[at + 1..])),
        None => (line, None),
    }
}

/// The next word, and what is left after it.
pub fn next_word(rest: Option<&[u8]>) -> Option<(&[u8], Option<&[u8]>)>
    ensures { MatchOption result (rest_words rest.entry ≡ []) (λ next. rest_words rest.entry ≡ next.0.now ∷ rest_words next.1) }
{
    match rest {
        Some(line) => Some(split_word(line)),
        None => None,
    }
}

/// The word, where there is one.
pub fn one(rest: Option<&[u8]>) -> Option<&[u8]>
    ensures { MatchOption result (nat_eq (length (rest_words rest.entry)) 1 ≡ false) (λ word. rest_words rest.entry ≡ word.now ∷ []) }
{
    let (word, rest) = next_word(rest)?;
    match next_word(rest) {
        Some(_) => None,
        None => Some(word),
    }
}

/// The words, where there are two.
pub fn two(rest: Option<&[u8]>) -> Option<(&[u8], &[u8])>
    ensures { MatchOption result (nat_eq (length (rest_words rest.entry)) 2 ≡ false) (λ words. rest_words rest.entry ≡ words.0.now ∷ words.1.now ∷ []) }
{
    let (first, rest) = next_word(rest)?;
    let second = one(rest)?;
    Some((first, second))
}

/// The words, where there are three.
pub fn three(rest: Option<&[u8]>) -> Option<(&[u8], &[u8], &[u8])>
    ensures { MatchOption result (nat_eq (length (rest_words rest.entry)) 3 ≡ false) (λ words. rest_words rest.entry ≡ words.0.now ∷ words.1.now ∷ words.2.now ∷ []) }
{
    let (first, rest) = next_word(rest)?;
    let (second, third) = two(rest)?;
    Some((first, second, third))
}

/// The words of a post after its first, and its values.
#[derive(Clone, Copy)]
pub struct PostWords<'t> {
    pub theatre: &'t [u8],
    pub number: &'t [u8],
    pub target: &'t [u8],
    pub behavior: &'t [u8],
    pub handler: &'t [u8],
    pub values: Option<&'t [u8]>,
}

/// The words of a post, where there are enough.
pub fn post_words(rest: Option<&[u8]>) -> Option<PostWords<'_>>
    ensures { MatchOption result (nat_lt (length (rest_words rest.entry)) 5 ≡ true)
        (λ p. rest_words rest.entry ≡ p.theatre.now ∷ p.number.now ∷ p.target.now ∷ p.behavior.now ∷ p.handler.now ∷ rest_words p.values) }
{
    let (theatre, rest) = next_word(rest)?;
    let (number, rest) = next_word(rest)?;
    let (target, rest) = next_word(rest)?;
    let (behavior, rest) = next_word(rest)?;
    let (handler, values) = next_word(rest)?;
    Some(PostWords {
        theatre,
        number,
        target,
        behavior,
        handler,
        values,
    })
}
