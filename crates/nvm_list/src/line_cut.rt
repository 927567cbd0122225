ghost use Rattle.std.specs.Prelude.{◌≡◌, ◌<◌, ◌≤◌, ◌+◌, [], ◌∷◌, length};
ghost use Rattle.std.specs.List.{slice_split, position_or_len, before_first};
ghost use Rattle.nvm_list.specs.Words as spec;
ghost use Rattle.nvm_list.specs.Words.{is, words_in, first, others};
ghost use Rattle.nvm_list.specs.Rest.{parts_left, bytes_left, IsAtWord};

/// The bytes before the first `end`, and those after it, where there is one.
pub fn cut(bytes: &[u8], end: u8) -> (&[u8], Option<&[u8]>)
    ensures parts { slice_split (is end) bytes.now ≡ result.0.now ∷ parts_left (is end) result.1 }
    ensures shorter { bytes_left result.1 ≤ length bytes.now }
{
    let place = place_of(bytes, end);
    if place < bytes.len() {
        (&bytes[..place], Some(&bytes[place + 1..]))
    } else {
        (bytes, None)
    }
}

/// Where the first such byte is, or the number of bytes where there is none.
pub fn place_of(bytes: &[u8], byte: u8) -> usize
    ensures place { result ≡ position_or_len (is byte) bytes.now }
    ensures within { result ≤ length bytes.now }
{
    let mut place = 0;
    while place < bytes.len() && bytes[place] != byte {
        place += 1;
    }
    place
}

/// The line before its comment.
pub fn without_comment(line: &[u8]) -> &[u8]
    ensures { result.now ≡ before_first (is 35) line.now }
{
    &line[..place_of(line, b'#')]
}

/// The first word, which is empty where there is none, and what comes after it.
pub fn first_word(bytes: &[u8]) -> (&[u8], &[u8])
    ensures word { result.0.now ≡ first (words_in bytes.now) }
    ensures others { words_in result.1.now ≡ others (words_in bytes.now) }
    ensures some { 0 < length result.0.now
        → words_in bytes.now ≡ result.0.now ∷ words_in result.1.now }
    ensures none { length result.0.now ≡ 0 → words_in bytes.now ≡ [] }
    ensures shorter { length result.0.now + length result.1.now ≤ length bytes.now }
{
    let text = without_blanks(bytes);
    text.split_at(word_length(text))
}

/// The bytes from the first on that isn't blank.
fn without_blanks(bytes: &[u8]) -> &[u8]
    ensures words { words_in result.now ≡ words_in bytes.now }
    ensures word { IsAtWord result.now }
    ensures within { length result.now ≤ length bytes.now }
{
    let mut start = 0;
    while start < bytes.len() && is_blank(bytes[start]) {
        start += 1;
    }
    &bytes[start..]
}

/// How many bytes come before the first blank.
fn word_length(text: &[u8]) -> usize
    ensures place { result ≡ position_or_len spec.is_blank text.now }
    ensures within { result ≤ length text.now }
{
    let mut place = 0;
    while place < text.len() && !is_blank(text[place]) {
        place += 1;
    }
    place
}

/// Whether a byte parts words: a space, a tab or a carriage return does.
pub fn is_blank(byte: u8) -> bool
    ensures { result ≡ spec.is_blank byte }
{
    byte == b' ' || byte == b'\t' || byte == b'\r'
}
