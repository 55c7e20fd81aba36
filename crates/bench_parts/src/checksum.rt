// A checksum of numbers, which the original must reach too.

#[derive(Clone, Copy, Debug, Default)]
pub struct Checksum(pub u64);

impl Checksum {
    // One number more.
    pub fn mix(&mut self, number: u32) {
        self.0 = self.0 % (1 << 32) * 31 + u64::from(number);
    }

    // Every so many of the bytes, the first and the last among them; the first alone for 0.
    pub fn probe(&mut self, bytes: &[u8], every: usize) {
        if every == 0 {
            if let Some(first) = bytes.first() {
                self.mix(u32::from(*first));
            }
            return;
        }
        for byte in bytes.iter().step_by(every) {
            self.mix(u32::from(*byte));
        }
        if let Some(last) = bytes.last() {
            self.mix(u32::from(*last));
        }
    }
}
