// The numbers of the command line.
ghost use Rattle.std.specs.Prelude.{◌≡◌, ℕ, ◌<◌, ◌≤◌, ◌^◌, IfSome, IfNone};
ghost use Rattle.std.specs.Fmt.{decimal};

/// A decimal number without sign and leading zeros, to `most`.
pub fn number(word: &str, most: u32) -> Option<u32>
    ensures some { IfSome result (λ n. (word.now ≡ decimal n) × (n ≤ most)) }
    ensures none { IfNone result ((n : ℕ) → n ≤ most → word.now ≡ decimal n → ⊥) }
{
    let value = decimal_of(word)?;
    if value <= most { Some(value) } else { None }
}

/// A decimal number without sign and leading zeros, below 2^32.
fn decimal_of(word: &str) -> Option<u32>
    ensures some { IfSome result (λ n. word.now ≡ decimal n) }
    ensures none { IfNone result ((n : ℕ) → n < 2 ^ 32 → word.now ≡ decimal n → ⊥) }
{
    match word.as_bytes() {
        [b'0'] | [b'1'..=b'9', ..] => word.parse().ok(),
        _ => None,
    }
}
