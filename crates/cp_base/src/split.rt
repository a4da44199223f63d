//! Texts that a byte parts.
ghost use Rattle.std.specs.Prelude.{◌≡◌, ◌∷◌, ◌++◌, ◌==◌, MatchOption, position};
ghost use Rattle.cp_base.specs.Text.{Lacks};

fn place_of(byte: u8, text: &[u8]) -> Option<usize>
    ensures { result ≡ position (λ b. b == byte) text.now }
{
    text.iter().position(|b| *b == byte)
}

/// What stands before the first such byte of a text, and what stands behind it.
pub fn split_at_byte(byte: u8, text: &[u8]) -> Option<(&[u8], &[u8])>
    ensures { MatchOption result (Lacks byte text.now)
        (λ parts. Lacks byte parts.0.now × (text.now ≡ parts.0.now ++ byte ∷ parts.1.now)) }
{
    let place = place_of(byte, text)?;
    Some((&text[..place], &text[place + 1..]))
}
