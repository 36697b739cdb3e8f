//! The words of a line, a blank between each two.
ghost use Rattle.std.specs.Prelude.{◌≡◌, position};
ghost use Rattle.text.specs.Words.{is_blank, first_word, other_words, one_word};

/// The first word of a text.
pub fn first(text: &[u8]) -> &[u8]
    ensures { result.now ≡ first_word text.now }
{
    let (word, _) = split(text);
    word
}

/// The words behind the first one and its blank.
pub fn others(text: &[u8]) -> &[u8]
    ensures { result.now ≡ other_words text.now }
{
    let (_, words) = split(text);
    words
}

/// A text is one word: no blank stands in it.
pub fn is_one(text: &[u8]) -> bool
    ensures { result ≡ one_word text.now }
{
    !text.contains(&b' ')
}

// The first word, and the words behind it.
fn split(text: &[u8]) -> (&[u8], &[u8])
    ensures first { result.0.now ≡ first_word text.now }
    ensures others { result.1.now ≡ other_words text.now }
{
    match first_blank(text) {
        Some(end) => (&text[..end], &text[end + 1..]),
        None => (text, &[]),
    }
}

// Where the first blank stands.
fn first_blank(text: &[u8]) -> Option<usize>
    ensures { result ≡ position is_blank text.now }
{
    text.iter().position(|octet| *octet == b' ')
}
