//! Text before a mark.

ghost use Rattle.std.specs.Prelude.{◌≡◌, ◌==◌, ◌<◌, ◌∷◌, length, IfSome};
ghost use Rattle.std.specs.List.{position};
ghost use Rattle.std.specs.Option.{option_copied};
ghost use Rattle.bgp_script.specs.Lines.{lines_of};
ghost use Rattle.bgp_script.specs.Pieces.{pieces_at};
ghost use Rattle.bgp_script.specs.steps.Cursor.{pieces_left};

// The index of the first of these marks.
fn place_of(text: &[u8], mark: u8) -> Option<usize>
    ensures place { result ≡ position (λ c. c == mark) text.now }
    ensures within { IfSome result (λ place. place < length text.now) }
{
    text.iter().position(|octet| *octet == mark)
}

/// The text before the first of these marks, and the text after it, if there is one.
pub(crate) fn cut_piece(text: &[u8], mark: u8) -> (&[u8], Option<&[u8]>)
    ensures { pieces_at mark text.now ≡ result.0.now ∷ pieces_left mark (option_copied result.1) }
{
    match place_of(text, mark) {
        Some(place) => (&text[..place], Some(&text[place + 1..])),
        None => (text, None),
    }
}

/// The first line, and what follows the LF that ends it.
pub(crate) fn cut_line(text: &[u8]) -> (&[u8], &[u8])
    requires { 0 < length text.now }
    ensures lines { lines_of text.now ≡ result.0.now ∷ lines_of result.1.now }
    ensures shorter { length result.1.now < length text.now }
{
    match place_of(text, b'\n') {
        Some(place) => (&text[..place], &text[place + 1..]),
        None => (text, &[]),
    }
}
