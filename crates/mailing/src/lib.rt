// What the program `specship` does: it writes the shipping form of each file that its arguments name, or of standard input, and says of a file that is refused why.
#![tactic(auto)]

use quiltrudder::ShippingAt;
use std::ops::ControlFlow;

// What is lent for a file: the tables, the indexes, and the text that is sent.
#[derive(Drop)]
struct Rooms<'a> {
    t1: &'a mut [u32],
    t2: &'a mut [u32],
    t3: &'a mut [u32],
    t4: &'a mut [u32],
    t5: &'a mut [u32],
    t6: &'a mut [u32],
    t7: &'a mut [u32],
    t8: &'a mut [u32],
    t9: &'a mut [u32],
    t10: &'a mut [u32],
    i1: &'a mut [u32],
    i7: &'a mut [u32],
    out: &'a mut [u8],
}

impl Rooms<'_> {
    fn ship(&mut self, src: &[u8], kind: u32) -> ShippingAt {
        quiltrudder::ship(
            src, kind, self.t1, self.t2, self.t3, self.t4, self.t5, self.t6, self.t7, self.t8,
            self.t9, self.t10, self.i1, self.i7, self.out,
        )
    }
}

// What the arguments have asked for so far, and the rooms for the next file.
#[derive(Drop)]
struct Mailer<'a> {
    kind: u32,
    has_file: bool,
    text: &'a mut [u8],
    rooms: Rooms<'a>,
}

impl Mailer<'_> {
    fn ship_file(&mut self, rt: &HostRuntime, file: &[u8]) {
        let kind = self.kind;
        let src = match arguments::read(rt, file, self.text) {
            Ok(src) => src,
            Err(error) => return streams::fail(rt, file, error),
        };
        let shipped = self.rooms.ship(src, kind);
        match shipped.answer {
            Ok(n) => {
                let _ = rt
                    .stdout()
                    .write_all(names::part(self.rooms.out, 0, n as usize));
            }
            Err(refusal) => {
                let number = grammar::tell(refusal).number;
                let _ = rt.stderr().write_all(file);
                let _ = eprintln!(rt;
                    ":{}:{}: refused with {number}",
                    shipped.spot.line, shipped.spot.column
                );
            }
        }
    }

    // A word: a kind, for the files behind it, or a file.
    fn take_word(&mut self, rt: &HostRuntime, word: &[u8]) -> ControlFlow<()> {
        if let Some(kind) = arguments::kind_of(word) {
            self.kind = kind;
            return ControlFlow::Continue(());
        }
        self.has_file = true;
        if let b"--help" = word {
            say_usage(rt);
            return ControlFlow::Break(());
        }
        self.ship_file(rt, word);
        ControlFlow::Continue(())
    }

    // An argument that does not fit is longer than a path may be.
    fn take_arguments(&mut self, rt: &HostRuntime, word: &mut [u8]) {
        for i in 1..arguments::count(rt) {
            match arguments::take(rt, i, word) {
                Ok(n) => {
                    if self.take_word(rt, &word[..n]).is_break() {
                        return;
                    }
                }
                Err(error) => {
                    streams::fail(rt, b"specship", error);
                    self.has_file = true;
                }
            }
        }
    }
}

fn say_usage(rt: &impl Print) {
    let _ = println!(rt;
        "usage: specship [original|grmtools|eco] [FILE] .. (standard input if there is no FILE)"
    );
}

// The rooms come one by one and as arrays: the check of a function that both makes them and lends them as slices runs out of stack.
fn ship_arguments<'a>(
    rt: &HostRuntime,
    word: &mut [u8; 4096],
    text: &'a mut [u8; 65537],
    t1: &'a mut [u32; 61440],
    t2: &'a mut [u32; 81920],
    t3: &'a mut [u32; 40960],
    t4: &'a mut [u32; 40960],
    t5: &'a mut [u32; 46080],
    t6: &'a mut [u32; 98304],
    t7: &'a mut [u32; 69760],
    t8: &'a mut [u32; 851968],
    t9: &'a mut [u32; 131072],
    t10: &'a mut [u32; 163840],
    i1: &'a mut [u32; 65536],
    i7: &'a mut [u32; 32768],
    out: &'a mut [u8; 65536],
) {
    let rooms = Rooms {
        t1,
        t2,
        t3,
        t4,
        t5,
        t6,
        t7,
        t8,
        t9,
        t10,
        i1,
        i7,
        out,
    };
    let mut mailer = Mailer {
        kind: 1,
        has_file: false,
        text,
        rooms,
    };
    mailer.take_arguments(rt, word);
    if !mailer.has_file {
        mailer.ship_file(rt, b"-");
    }
}

// Rooms for any source of up to 65,536 bytes: as many rows of each table as the program `speccheck` has. An argument is as long as a path may be, and the text has a byte more than a source may
// have; no longer text is sent.
pub fn ship_files(rt: &HostRuntime) {
    let mut word = [0; 4096];
    let mut text = [0; 65537];
    let mut out = [0; 65536];
    let mut t1 = [0; 61440];
    let mut t2 = [0; 81920];
    let mut t3 = [0; 40960];
    let mut t4 = [0; 40960];
    let mut t5 = [0; 46080];
    let mut t6 = [0; 98304];
    let mut t7 = [0; 69760];
    let mut t8 = [0; 851968];
    let mut t9 = [0; 131072];
    let mut t10 = [0; 163840];
    let mut i1 = [0; 65536];
    let mut i7 = [0; 32768];
    ship_arguments(
        rt, &mut word, &mut text, &mut t1, &mut t2, &mut t3, &mut t4, &mut t5, &mut t6, &mut t7,
        &mut t8, &mut t9, &mut t10, &mut i1, &mut i7, &mut out,
    );
}
