//! Copies of bytes from one slice to the front of another.

ghost use Rattle.std.specs.Prelude.{◌≡◌, ◌+◌, ◌<◌, ◌≤◌, [], ◌++◌, length, take, drop, min};

/// Copies the front of `from` to the front of `into`, as much as both have but at most `most`
/// bytes, and answers how many.
fn copy_front(from: &[u8], into: &mut [u8], most: usize) -> usize
    ensures count { result ≡ min most (min (length into.old) (length from.now)) }
    ensures copied { into.new ≡ take result from.now ++ drop result into.old }
    ensures front { take result into.new ≡ take result from.now }
{
    let count = most.min(into.len().min(from.len()));
    into[..count].copy_from_slice(&from[..count]);
    count
}

/// Copies the bytes that are left behind `place`, as many as `into` has room for but at most
/// `most`, and answers how many. The place is to be moved on by that number.
#[tactic(auto, using(crate::proofs::Fronts::given_then_left, crate::proofs::Fronts::left_behind))]
pub(crate) fn copy_left(bytes: &[u8], place: usize, into: &mut [u8], most: usize) -> usize
    requires { place ≤ length bytes.now }
    ensures count { result ≡ min most (min (length into.old) (length (drop place bytes.now))) }
    ensures copied { into.new ≡ take result (drop place bytes.now) ++ drop result into.old }
    ensures given { drop place bytes.now
        ≡ take result into.new ++ drop (place + result) bytes.now }
    ensures rest { drop (place + result) bytes.now ≡ drop result (drop place bytes.now) }
    ensures end { result ≡ 0 → 0 < most → 0 < length into.old → drop place bytes.now ≡ [] }
{
    let (_, left) = bytes.split_at(place);
    copy_front(left, into, most)
}
