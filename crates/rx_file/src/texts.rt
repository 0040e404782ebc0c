// Words and numbers as text.
ghost use Rattle.std.specs.Prelude.{◌≡◌, ◌≢◌, ◌≤◌, ◌<◌, [], ◌∷◌, length, true, drop, IfSome, MatchOption};
ghost use Rattle.std.specs.List.{list_all, position_or_len};
ghost use Rattle.rx_set.specs.Names.{is_digit};
ghost use Rattle.rx_file.specs.Texts.{is_number, number_of, value_of, word_number, is_space, words_of};

/// Whether all bytes are digits.
fn are_digits(word: &[u8]) -> bool
    ensures { result ≡ list_all is_digit word.now }
{
    for byte in word {
        if !byte.is_ascii_digit() {
            return false;
        }
    }
    true
}

/// Whether a word is 1 to most digits.
fn is_number(most: usize, word: &[u8]) -> bool
    ensures { result ≡ is_number most word.now }
{
    1 <= word.len() && word.len() <= most && are_digits(word)
}

/// The number that digits spell.
fn value_of(digits: &[u8]) -> u128
    requires few { length digits.now ≤ 38 }
    requires digits { list_all is_digit digits.now ≡ true }
    ensures { result ≡ value_of digits.now }
{
    let mut value = 0;
    for byte in digits {
        value = 10 * value + u128::from(*byte - b'0');
    }
    value
}

/// The number of a word of 1 to `most` ASCII digits, leading zeros allowed, and `None` for any other word. Its cost
/// grows with the length of a word of that form, and is constant for longer ones.
pub fn number_of(word: &[u8], most: usize) -> Option<u128>
    requires { most ≤ 38 }
    ensures { result ≡ number_of most word.now }
{
    if is_number(most, word) {
        Some(value_of(word))
    } else {
        None
    }
}

/// The number of a number word.
pub(crate) fn word_number(word: &[u8]) -> Option<u32>
    ensures { result ≡ word_number word.now }
{
    match number_of(word, 10) {
        Some(number) => u32::try_from(number).ok(),
        None => None,
    }
}

/// How many spaces a text begins with.
fn spaces(text: &[u8]) -> usize
    ensures bound { result ≤ length text.now }
    ensures same_words { words_of (drop result text.now) ≡ words_of text.now }
    ensures no_space { result < length text.now → position_or_len is_space (drop result text.now) ≢ 0 }
{
    let mut at = 0;
    while at < text.len() && text[at] == b' ' {
        at += 1;
    }
    at
}

/// How many bytes stand before the first space.
fn word_len(text: &[u8]) -> usize
    ensures bound { result ≤ length text.now }
    ensures place { result ≡ position_or_len is_space text.now }
{
    let mut at = 0;
    while at < text.len() && text[at] != b' ' {
        at += 1;
    }
    at
}

/// The first word of a text and what follows it, or `None` where there is no word.
pub(crate) fn next_word(text: &[u8]) -> Option<(&[u8], &[u8])>
    ensures words { MatchOption result (words_of text.now ≡ []) (λ p. words_of text.now ≡ p.0.now ∷ words_of p.1.now) }
    ensures shorter { IfSome result (λ p. length p.1.now < length text.now) }
{
    let start = spaces(text);
    if start == text.len() {
        return None;
    }
    let rest = &text[start..];
    let end = word_len(rest);
    Some((&rest[..end], &rest[end..]))
}
