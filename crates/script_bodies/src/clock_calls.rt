// The calls of the clock.
use script_text::read_number;
use std::fmt::Write;
use time::RtmpTimestamp;

// The timestamp that the word is.
fn read_time(word: &str) -> Option<RtmpTimestamp> {
    read_number(word).map(RtmpTimestamp::new)
}

// How the first stands to the second, by the distance from the first to the second.
fn order_of(distance: i64) -> &'static str {
    match distance {
        1.. => "earlier",
        0 => "same",
        _ => "later",
    }
}

// Makes the call that the words are, and puts its answer; none where they are no call.
pub fn make_time(words: &[&str], text: &mut impl Write) -> Option<()> {
    let ["time", name, a, b] = *words else {
        return None;
    };
    let (a, b) = (read_time(a)?, read_time(b)?);
    match name {
        "add" => write!(text, "{}", a.add(b).value).ok(),
        "sub" => write!(text, "{}", a.subtract(b).value).ok(),
        "set" => write!(text, "{}", a.set(b.value).value).ok(),
        "cmp" => text.write_str(order_of(a.compare(b).distance)).ok(),
        "distance" => write!(text, "{}", a.compare(b).distance).ok(),
        _ => None,
    }
}
