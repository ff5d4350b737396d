//! Enforces a policy on a log over devices of which one call fails, at each place in turn, and holds what is left on the
//! gate and the report against what a run without a fault gives. The words are the files of the signature, the policy
//! and the log. Standard output has the rows that do not hold, and after them how many do.
#![tactic(auto)]

mod files;
mod reads;
mod runs;
mod scan;
mod table;
mod writes;

use enf_io::adapters::StdFiles;
use enf_io::devices::{Files, IoRefusal};
use enf_run::words::command_words;
use runs::Texts;
use std::io;
use std::io::Write;
use table::Table;

// No file is read further than so many bytes.
const MOST_FILE_BYTES: usize = 65_536;

fn main(rt: HostRuntime) -> io::Result<()> {
    let mut output = io::writer(&rt);
    match tried(&rt) {
        Ok(table) => table.write(&mut output),
        Err(IoRefusal::NoMemory) => output.write_all(b"no memory\n"),
        Err(IoRefusal::Failed) => output.write_all(
            b"three files are wanted: signature, policy, log\n",
        ),
    }
}

// The whole table.
fn tried(rt: &HostRuntime) -> Result<Table, IoRefusal> {
    let alloc = rt.alloc();
    let texts = read_texts(rt)?;
    let mut table = Table::new(alloc);
    reads::in_pieces(alloc, &texts, &mut table)?;
    reads::failing(alloc, &texts, &mut table)?;
    writes::failing(alloc, &texts, &mut table)?;
    writes::report_failing(alloc, &texts, &mut table)?;
    files::failing(alloc, &texts, &mut table)?;
    files::resumed(alloc, &texts, &mut table)?;
    Ok(table)
}

// What the files hold that the words name.
fn read_texts(rt: &HostRuntime) -> Result<Texts, IoRefusal> {
    let words = command_words(rt).or(Err(IoRefusal::NoMemory))?;
    let mut files = StdFiles::new(rt);
    match words.as_slice() {
        [signature, policy, log] => Ok(Texts {
            signature: files.read(signature.as_str(), MOST_FILE_BYTES)?,
            policy: files.read(policy.as_str(), MOST_FILE_BYTES)?,
            log: files.read(log.as_str(), MOST_FILE_BYTES)?,
        }),
        _ => Err(IoRefusal::Failed),
    }
}
