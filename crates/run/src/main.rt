// The run program: it reads standard input, hands the bytes on to `script`, and prints what that says, in this order and nothing else.
// Input and output have no model in std: that this loop reads and prints so, and the C library, are what must be believed.
#![tactic(auto)]

ghost use Rattle.script.specs.Positions.{Leads};
ghost use Rattle.script.specs.Buffers.{position_of, Ready, Blank};

use script::{Run, Step, running};
use std::io;
use std::io::{Read, Stdin};

// Standard output, and whether all was written. After a write that failed nothing more is written.
#[derive(Drop)]
struct Output<'a> {
    rt: &'a HostRuntime,
    written: io::Result<()>,
}

impl<'a> Output<'a> {
    fn print(&mut self, text: &[u8]) {
        if self.written.is_ok() {
            self.written = self.rt.write_all(text);
        }
    }
}

// Hands the bytes of one read on, and prints what they lead to.
fn hand_on(
    output: &mut Output<'_>,
    run: Run,
    bytes: &[u8],
    line: &mut [u8],
    page: &mut [u8],
    data: &mut [u8],
) -> Run
    requires { Ready run line.old page.old «data».old }
    ensures ready { Ready result line.new page.new «data».new }
    ensures leads { Leads (position_of run line.old page.old) bytes.now
        (position_of result line.new page.new) }
{
    let mut state = run;
    let mut rest = bytes;
    while !rest.is_empty() {
        let Step {
            run,
            printed,
            taken,
        } = running::take_bytes(state, rest, line, page, data);
        output.print(printed.text());
        state = run;
        rest = &rest[taken..];
    }
    state
}

// The end of the input.
fn finish(output: &mut Output<'_>, run: Run) {
    output.print(running::take_end(run).text());
}

// The whole input, which ends where a read brings nothing. A proved loop has to end, and nothing says that the input does: so the reads are
// counted, up to a number that no run comes to.
fn read_all(
    stdin: &mut Stdin,
    output: &mut Output<'_>,
    line: &mut [u8],
    page: &mut [u8],
    data: &mut [u8],
) -> io::Result<()>
    requires { Blank line.old page.old «data».old }
{
    let mut run = running::begin();
    let mut chunk = [0u8; 65536];
    for _ in 0..u64::MAX {
        if !run.on || output.written.is_err() {
            return Ok(());
        }
        let n = stdin.read(&mut chunk)?;
        if n == 0 {
            finish(output, run);
            return Ok(());
        }
        run = hand_on(output, run, &chunk[..n], line, page, data);
    }
    Ok(())
}

// The largest page has 24,576 bytes, its data 4,096, and of a line one byte more is kept than the longest one in form has.
fn main(rt: HostRuntime) -> io::Result<()> {
    let mut page = [0u8; 24576];
    let mut data = [0u8; 4096];
    let mut line = [0u8; 8193];
    let mut output = Output {
        rt: &rt,
        written: Ok(()),
    };
    read_all(
        &mut rt.stdin(),
        &mut output,
        &mut line,
        &mut page,
        &mut data,
    )?;
    output.written
}
