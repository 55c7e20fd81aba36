// An encoder of which nothing is known but a chunk size.
ghost use Rattle.std.specs.Prelude.{◌≡◌, replicate};
ghost use Rattle.serializer.specs.Remembered.{fresh};
ghost use Rattle.serializer.specs.Serialize.{size_changed};

use serializer::ChunkSerializer;
use time::RtmpTimestamp;

// An encoder that has told its peer a chunk size.
pub fn encoder(size: u32) -> ChunkSerializer
    ensures { result ≡ (size_changed fresh size 0 (replicate 16 0)).serializer }
{
    let mut output = [0; 16];
    let fresh = ChunkSerializer::new();
    let told = fresh.set_max_chunk_size(size, RtmpTimestamp::new(0), &mut output);
    told.serializer
}
