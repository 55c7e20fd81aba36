// The way out: each call on the encoder, and the kept packets one after the other.
use crate::plan::{Call, plan};
use arrayvec::ArrayVec;
use serializer::{ChunkSerializer, PacketError};
use std::io;
use test_parts::part;

// The packets that were kept, and the places of their calls in the plan.
#[derive(Clone, Copy)]
pub struct Line<'a> {
    pub wire: &'a [u8],
    pub kept: &'a [usize],
}

// What was sent.
#[derive(Drop)]
pub struct Sent {
    wire: ArrayVec<u8, 4096>,
    kept: ArrayVec<usize, 16>,
    // whether each call was answered as the plan says
    pub is_planned: bool,
}

impl Sent {
    fn new() -> Self {
        Sent {
            wire: ArrayVec::new(),
            kept: ArrayVec::new(),
            is_planned: true,
        }
    }

    pub fn line(&self) -> Line<'_> {
        Line {
            wire: self.wire.as_slice(),
            kept: self.kept.as_slice(),
        }
    }

    // Puts a packet and the place of its call behind those before. What does not fit is lost.
    fn keep(&mut self, packet: &[u8], place: usize) {
        let _ = self.wire.try_extend_from_slice(packet);
        let _ = self.kept.try_push(place);
    }
}

// Writes what became of the call, and whether that is as planned.
fn print_call(
    rt: &impl Print,
    call: &Call,
    packet: Result<usize, PacketError>,
) -> io::Result<bool> {
    match packet {
        Ok(count) if call.is_kept => print!(rt; "{call}: wrote {count}, kept")?,
        Ok(count) => print!(rt; "{call}: wrote {count}, left out")?,
        Err(error) => print!(rt; "{call}: refused {}", error.number())?,
    }
    let is_planned = packet.err() == call.refusal;
    println!(rt; "{}", if is_planned { "" } else { ", not as planned" })?;
    Ok(is_planned)
}

// Makes all calls, and keeps the packets of those whose packets are to be kept.
pub fn encode_all(rt: &impl Print) -> io::Result<Sent> {
    let mut encoder = ChunkSerializer::new();
    let mut sent = Sent::new();
    let mut bytes = [0; 256];
    let mut output = [0; 512];
    for (place, call) in plan().iter().enumerate() {
        let made = call.make(encoder, call.payload(place, &mut bytes), &mut output);
        encoder = made.serializer;
        let packet = made.packet;
        let is_planned = print_call(rt, call, packet)?;
        sent.is_planned = sent.is_planned && is_planned;
        if let Ok(count) = packet
            && call.is_kept
        {
            sent.keep(part(&output, 0, count), place);
        }
    }
    Ok(sent)
}
