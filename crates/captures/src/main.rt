// Four real chunk streams (data/), byte by byte and cut at random: every message that the decoder hands out, in the form of
// the listings beside them. What it must write, the file `stdout`, is made from these listings alone (compare/stored).
#![tactic(auto)]

mod hash;
mod listing;

use crate::listing::list_all;
use std::rt::Files;
use std::{fs, io};
use test_calls::Cut;
use test_parts::read_full;

// The longest capture.
const CAPTURE_LENGTH: usize = 65536;

const NAMES: [&str; 4] = [
    "ffmpeg-pub-128.c2s.rtmp",
    "gst-rtmp2sink-change.c2s.rtmp",
    "nginx-play-rtmpdump-128.s2c.rtmp",
    "obs-pub.c2s.rtmp",
];

// Reads the capture into what is lent.
fn read<'a>(rt: &impl Files, name: &str, room: &'a mut [u8]) -> io::Result<&'a [u8]> {
    let mut file = fs::open(rt, name)?;
    let length = read_full(&mut file, room)?;
    Ok(&room[..length])
}

// Lists the capture in both cuts.
fn list_both(rt: &impl Print, name: &str, capture: &[u8]) -> io::Result<()> {
    println!(rt; "{name}, byte by byte")?;
    list_all(rt, capture, Cut::Even(1))?;
    println!(rt; "{name}, cut at random")?;
    list_all(rt, capture, Cut::random())
}

// Reads the capture and lists it. Where it cannot be read, its name is on standard error.
fn run(rt: &(impl Files + Print + Eprint), name: &str, room: &mut [u8]) -> io::Result<()> {
    match read(rt, name, room) {
        Ok(capture) => list_both(rt, name, capture),
        Err(error) => {
            eprintln!(rt; "{name}: {error}")?;
            Err(error)
        }
    }
}

fn main(rt: HostRuntime) -> io::Result<()> {
    let mut room = [0; CAPTURE_LENGTH];
    for name in NAMES {
        run(&rt, name, &mut room)?;
    }
    Ok(())
}
