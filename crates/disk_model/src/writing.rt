//! Bytes that are written into buffers with room for them.

ghost use Rattle.std.specs.Prelude.{◌≡◌, ◌+◌, ◌≤◌, ◌++◌, length};
ghost use Rattle.std.specs.Vec.{vec_len, vec_capacity};
ghost use Rattle.disk_model.specs.Contents.{overwritten};

/// Puts a piece behind the bytes. There is room for it.
pub(crate) fn put_behind(bytes: &mut Vec<u8>, piece: &[u8])
    requires { vec_len bytes.old + length piece.now ≤ vec_capacity bytes.old }
    ensures items { bytes.new.items ≡ bytes.old.items ++ piece.now }
    ensures len { vec_len bytes.new ≡ vec_len bytes.old + length piece.now }
    ensures capacity { vec_capacity bytes.old ≤ vec_capacity bytes.new }
{
    if bytes.extend_from_slice(piece).is_err() {
        unreachable!();
    }
}

/// Puts a piece at a place, over what stands there and past the end. There is room for it.
pub(crate) fn put_at(bytes: &mut Vec<u8>, place: usize, piece: &[u8])
    requires begin { place ≤ vec_len bytes.old }
    requires room { vec_len bytes.old + length piece.now ≤ vec_capacity bytes.old }
    ensures items { bytes.new.items ≡ overwritten bytes.old.items place piece.now }
    ensures len { vec_len bytes.new ≤ vec_len bytes.old + length piece.now }
    ensures capacity { vec_capacity bytes.old ≤ vec_capacity bytes.new }
{
    let over = piece.len().min(bytes.len() - place);
    let (front, behind) = piece.split_at(over);
    bytes[place..place + over].copy_from_slice(front);
    put_behind(bytes, behind);
}
