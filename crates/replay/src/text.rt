// The answers as text. It waits in a buffer, which is written when it is full and when the script ends. After a write that failed nothing more is taken up
// or written.
use itoa::Buffer;

#[derive(Drop)]
pub struct Text<'a, P> {
    rt: &'a P,
    // how many bytes of the buffer wait
    waiting: usize,
    buffer: [u8; 65536],
    // whether a write has failed
    pub failed: bool,
}

impl<'a, P: Print + Eprint> Text<'a, P> {
    pub fn new(rt: &'a P) -> Self {
        Text {
            rt,
            waiting: 0,
            buffer: [0; 65536],
            failed: false,
        }
    }

    // Writes what waits.
    fn write(&mut self) {
        let waiting = self.buffer.get(..self.waiting).unwrap_or(&[]);
        self.failed |= self.rt.write_all(waiting).is_err();
        self.waiting = 0;
    }

    fn put(&mut self, bytes: &[u8]) {
        for &b in bytes {
            if self.waiting == self.buffer.len() {
                self.write();
            }
            if self.failed {
                return;
            }
            if let Some(slot) = self.buffer.get_mut(self.waiting) {
                *slot = b;
                self.waiting += 1;
            }
        }
    }

    fn put_number(&mut self, x: u64) {
        self.put(Buffer::new().format(x).as_bytes());
    }

    // The answer to a malformed line.
    pub fn malformed(&mut self, line: u64) {
        self.put(b"malformed ");
        self.put_number(line);
        self.put(b"\n");
    }

    // A line of numbers, one space between.
    pub fn line(&mut self, numbers: &[u64]) {
        for (i, &x) in numbers.iter().enumerate() {
            if i > 0 {
                self.put(b" ");
            }
            self.put_number(x);
        }
        self.put(b"\n");
    }

    // Writes what waits; says so on standard error where that or an earlier write failed.
    pub fn end(&mut self) {
        if !self.failed {
            self.write();
        }
        if self.failed {
            let _ = eprintln!(self.rt;
                "replay: a write to standard output failed, and the answers end there"
            );
        }
    }
}
