// Answers a script of calls, one line for each, as docs/REPLAY.md says.

#![tactic(auto)]

mod arguments; // arguments.rt: a line's numbers, read as the arguments of its call
mod calls; // calls.rt: the calls, by their number
mod line; // line.rt: a line of the script, byte by byte
mod reply; // reply.rt: the numbers of an answer
mod text; // text.rt: the answers as text

use calls::Rooms;
use line::Line;
use reply::Reply;
use std::io::Read;
use text::Text;

// The line as far as it was read, what its call is lent and answers, and the text of the answers.
#[derive(Drop)]
struct Script<'a, P> {
    line: Line,
    rooms: Rooms,
    reply: Reply,
    text: Text<'a, P>,
}

impl<'a, P: Print + Eprint> Script<'a, P> {
    fn new(rt: &'a P) -> Self {
        Script {
            line: Line::new(),
            rooms: Rooms::new(),
            reply: Reply::new(),
            text: Text::new(rt),
        }
    }

    fn take(&mut self, bytes: &[u8]) {
        for &b in bytes {
            if b == b'\n' {
                self.end_line();
            } else {
                self.line.byte(b);
            }
            if self.text.failed {
                return;
            }
        }
    }

    // The answer to the line that ends here.
    fn end_line(&mut self) {
        self.reply.clear();
        match self.answer() {
            Some(()) => self.text.line(self.reply.numbers()),
            None => self.text.malformed(self.line.number),
        }
        self.line.next();
    }

    fn answer(&mut self) -> Option<()> {
        calls::answer(self.line.numbers()?, &mut self.rooms, &mut self.reply)
    }

    // What is left when the script ends: a last line that no line feed ends, and the text.
    fn end(&mut self) {
        if self.line.begun() {
            self.end_line();
        }
        self.text.end();
    }
}

// Nothing says that the script ends, and a proved loop has to: it has more turns than any run uses up.
fn run(input: &mut impl Read, script: &mut Script<'_, impl Print + Eprint>) {
    let mut chunk = [0; 65536];
    for _ in 0..u64::MAX {
        let Ok(n @ 1..) = input.read(&mut chunk) else {
            break;
        };
        script.take(&chunk[..n]);
        if script.text.failed {
            break;
        }
    }
    script.end();
}

fn main(rt: HostRuntime) {
    run(&mut rt.stdin(), &mut Script::new(&rt));
}
