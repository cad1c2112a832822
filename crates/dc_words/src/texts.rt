ghost use Rattle.std.specs.Prelude.{◌≡◌, ◌<◌, ◌==◌, ◌∷◌, [], IfSome, None, length, position};
ghost use Rattle.dc_words.specs.Texts.{fields_of, lines_of};

use memchr::memchr;

/// Where the first such byte stands.
pub fn find(stop: u8, text: &[u8]) -> Option<usize>
    ensures find { result ≡ position (λ c. c == stop) text.now }
    ensures within { IfSome result (λ i. i < length text.now) }
{
    memchr(stop, text)
}

/// The first line of a text that is not empty, and what follows it. The last line may lack its line feed.
pub fn first_line(text: &[u8]) -> (&[u8], &[u8])
    requires { 0 < length text.now }
    ensures lines { lines_of text.now ≡ result.0.now ∷ lines_of result.1.now }
    ensures shorter { length result.1.now < length text.now }
{
    match find(b'\n', text) {
        Some(end) => (&text[..end], &text[end + 1..]),
        None => (text, &text[text.len()..]),
    }
}

/// What stands before the first such byte, and what follows it; none where there is no such byte.
pub fn first_field(stop: u8, text: &[u8]) -> Option<(&[u8], &[u8])>
    ensures some { IfSome result (λ x. fields_of stop text.now ≡ x.0.now ∷ fields_of stop x.1.now) }
    ensures none { result ≡ None → fields_of stop text.now ≡ text.now ∷ [] }
    ensures shorter { IfSome result (λ x. length x.1.now < length text.now) }
{
    let end = find(stop, text)?;
    Some((&text[..end], &text[end + 1..]))
}
