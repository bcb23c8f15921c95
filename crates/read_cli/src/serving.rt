// The program on a disk.
ghost use Rattle.std.specs.Prelude.{◌≡◌, map, string_bytes};
ghost use Rattle.proj_io.specs.Items.{Stays};
ghost use Rattle.proj_io.specs.Views.{sink_view};
ghost use Rattle.proj_journal.specs.Journals.{items_of};
ghost use Rattle.read_cli.specs.Readings.{reading};
ghost use Rattle.read_cli.specs.Served.{IsReadOn};

use crate::program::read;
use proj_cli::{Served, error_code, outcome_code, tell_error};
use proj_disk::Disk;
use proj_io::Sink;
use proj_journal::Journal;
use std::alloc::Global;

/// Reads from the journal on the disk what the words ask for. The status is the number of the outcome, or says why
/// there is no journal, as of proj_cli's `serve`; an empty disk has none.
pub fn read_on<O: Sink, E: Sink, D: Disk>(
    alloc: Global,
    words: &[String],
    out: &mut O,
    err: &mut E,
    disk: D,
) -> Served<D>
    // The words were read over the list that the bytes spell, or there was no journal.
    ensures read { let out_view = sink_view O.written O.faults O.refusals in
        let err_view = sink_view E.written E.faults E.refusals in
        IsReadOn (reading (map (λ word. string_bytes word) words.now)) (out.new ≡ out.old)
        (record { out = out_view out.old; err = err_view err.old; content = D.content disk; faults = D.faults disk })
        (record {
          out = out_view out.new;
          err = err_view err.new;
          content = D.content result.disk;
          faults = D.faults result.disk;
        }) result.status }
    // The bytes of the disk spell the list that they spelled, whatever happens.
    ensures same { Stays (items_of (D.content disk)) (items_of (D.content result.disk)) }
{
    match Journal::open(alloc, disk) {
        Ok(mut journal) => {
            let outcome = read(alloc, words, out, err, &mut journal);
            Served {
                status: outcome_code(&outcome),
                disk: journal.into_disk(),
            }
        }
        Err(none) => {
            let error = tell_error(alloc, none.error, err);
            Served {
                status: error_code(error),
                disk: none.disk,
            }
        }
    }
}
