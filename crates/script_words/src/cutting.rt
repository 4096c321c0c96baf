//! Bytes cut at a byte.
ghost use Rattle.std.specs.Prelude.{◌≡◌, ◌<◌, ◌==◌, IfSome, length, position};
ghost use Rattle.std.specs.Option.{option_map};
ghost use Rattle.mvcc_key.specs.Cutting.{cut_at};

/// What stands before the first such byte, and what stands behind it, where there is one.
pub fn cut(bytes: &[u8], at: u8) -> (&[u8], Option<&[u8]>)
    ensures before { result.0.now ≡ (cut_at at bytes.now).before }
    ensures after { option_map (λ r. r.now) result.1 ≡ (cut_at at bytes.now).after }
    ensures shorter { IfSome result.1 (λ r. length r.now < length bytes.now) }
{
    match place_of(bytes, at) {
        Some(place) => (bytes.split_at(place).0, Some(bytes.split_at(place + 1).1)),
        None => (bytes, None),
    }
}

fn place_of(bytes: &[u8], at: u8) -> Option<usize>
    ensures value { result ≡ position (λ b. b == at) bytes.now }
    ensures within { IfSome result (λ place. place < length bytes.now) }
{
    bytes.iter().position(|byte| *byte == at)
}
