//! The script of a record.
ghost use Rattle.std.specs.Prelude.{◌≡◌, ◌∷◌, [], ◌++◌, ℕ, List, IfOk, OnOk, map};
ghost use Rattle.std.specs.List.{flat_map};
ghost use Rattle.csv.specs.Reading.{strip_bom};
ghost use Rattle.csv.specs.Records.{fields_of};
ghost use Rattle.example_tracer.specs.Replay.{added, script_of, IsReplay};

use csv::{ByteRecord, Error, ReaderBuilder};
use std::alloc::{AllocError, Global};

/// Appends the line that a row has in its first column; the header has none.
#[tactic(auto, unfolding(csv::specs::Records::field_at))]
fn add(script: &mut Vec<u8>, row: &ByteRecord, is_header: bool) -> Result<(), AllocError>
    ensures { OnOk result (script.new.items ≡ script.old.items ++ added is_header (fields_of row.now)) }
{
    if !is_header {
        if let Some(line) = row.get(0) {
            script.extend_from_slice(line)?;
        }
        script.push(b'\n')?;
    }
    Ok(())
}

/// The script of a record.
pub fn replay(alloc: Global, text: &[u8]) -> Result<Vec<u8>, Error>
    ensures { IfOk result (λ script. IsReplay (strip_bom text.now) script.items) }
{
    let reader = ReaderBuilder::new()
        .has_headers(false)
        .from_reader(alloc, text);
    let mut script = Vec::new(alloc);
    let mut is_header = true;
    for row in reader.into_byte_records() {
        let row = row?;
        let Ok(()) = add(&mut script, &row, is_header) else {
            return Err(Error::out_of_memory());
        };
        is_header = false;
    }
    Ok(script)
}

/// The script that is read from a table consists of the lines in the table's first column, in their order and without the header.
pub fn replays()
    ensures { (header : List (List ℕ)) (others : List ℕ → List (List ℕ)) (lines : List (List ℕ))
        → script_of (header ∷ map (λ line. line ∷ others line) lines) ≡ flat_map (λ line. line ++ 10 ∷ []) lines }
{}
