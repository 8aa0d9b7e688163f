//! Cutting bytes at a mark.
ghost use Rattle.std.specs.Prelude.{◌≡◌, ◌==◌, ◌<◌, length, position, option_map, IfSome};
ghost use Rattle.aw_spelling.specs.Spelling.{cut};

fn place_of(bytes: &[u8], mark: u8) -> Option<usize>
    ensures value { result ≡ position (λ b. b == mark) bytes.now }
    ensures within { IfSome result (λ at. at < length bytes.now) }
{
    bytes.iter().position(|byte| *byte == mark)
}

/// The bytes before the first `mark`, and those behind it; `None` where there is no such byte.
pub fn cut_at(bytes: &[u8], mark: u8) -> Option<(&[u8], &[u8])>
    ensures value { option_map (λ x. (x.0.now, x.1.now)) result ≡ cut mark bytes.now }
    ensures shorter { IfSome result (λ x. length x.1.now < length bytes.now) }
{
    let at = place_of(bytes, mark)?;
    let (front, behind) = bytes.split_at(at);
    let (_, rest) = behind.split_at(1);
    Some((front, rest))
}
