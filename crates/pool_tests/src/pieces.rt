use piece_table::PieceTable;
use std::alloc::{AllocError, Global};
use std::test::Fail;

// A ready piece is found and lent once, and is ready again when its claim was taken back.
fn lends_once(alloc: Global) -> Result<bool, AllocError> {
    let mut table = PieceTable::new(alloc);
    let resting = table.add(false)?;
    let ready = table.add(true)?;
    let found = table.first_ready();
    table.mark(resting, false);
    Ok(found == Some(ready) && resting != ready)
}

fn is_taken_back(alloc: Global) -> Result<bool, AllocError> {
    let mut table = PieceTable::new(alloc);
    table.add(true)?;
    lent_and_taken_back(&mut table)
}

fn lent_and_taken_back(table: &mut PieceTable) -> Result<bool, AllocError> {
    match table.first_ready() {
        Some(piece) => {
            let claim = table.lend(piece)?;
            let lends = table.piece_of(claim) == Some(piece) && table.first_ready().is_none();
            let was_live = table.take_back(claim) && !table.take_back(claim);
            Ok(lends && was_live && table.first_ready() == Some(piece))
        }
        None => Ok(false),
    }
}

// A mark ends the claim of a piece.
fn a_mark_ends_the_claim(alloc: Global) -> Result<bool, AllocError> {
    let mut table = PieceTable::new(alloc);
    table.add(true)?;
    lent_and_marked(&mut table)
}

fn lent_and_marked(table: &mut PieceTable) -> Result<bool, AllocError> {
    match table.first_ready() {
        Some(piece) => {
            let claim = table.lend(piece)?;
            table.mark(piece, true);
            Ok(!table.take_back(claim) && table.first_ready() == Some(piece))
        }
        None => Ok(false),
    }
}

#[test]
fn a_piece_is_lent_once_at_a_time(rt: HostRuntime) -> Result<(), Fail> {
    assert!(rt; lends_once(rt.alloc())?);
    assert!(rt; is_taken_back(rt.alloc())?);
    assert!(rt; a_mark_ends_the_claim(rt.alloc())?);
    Ok(())
}
