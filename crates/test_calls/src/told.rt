// What messages tell a decoder.
ghost use Rattle.std.specs.Prelude.{◌≡◌, ◌↔◌, IsSome, length};

use in_place::Message;

// The chunk size that a message tells: one of type 1 whose payload is four bytes.
pub fn size_told(message: Message, payload: &[u8]) -> Option<u32>
    ensures { IsSome result ↔ ((message.type_id ≡ 1) × (length payload.now ≡ 4)) }
{
    if message.type_id != 1 {
        return None;
    }
    let bytes = <[u8; 4]>::try_from(payload).ok()?;
    Some(u32::from_be_bytes(bytes))
}
