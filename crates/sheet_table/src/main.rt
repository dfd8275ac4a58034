// The operators' reader: a sheet of pieces on standard input, as a table of its streams, pieces and starts, by start. It goes by the proved reader: of a sheet
// that this refuses nothing is shown but the number.
#![tactic(auto)]

use calls::{Drive, Returned};
use std::io;
use telling::reading::{read_text, text_room};

// The pieces of a list, three numbers to a piece: its stream, its start and how many leaves it has, of which the list has the exponent.
fn show_pieces(rt: &impl Print, list: &[u16]) -> io::Result<()> {
    for piece in list.chunks_exact(3) {
        if let [name, start, exponent @ 0..=12] = piece {
            let size = pieces::size_of(usize::from(*exponent));
            println!(rt; "{name:>7}{start:>7}{size:>7}")?;
        }
    }
    Ok(())
}

// The record that was read, and the pieces of the board.
fn show_board(rt: &impl Print, drive: Drive, board: &[u16; 4095]) -> io::Result<()> {
    let c = usize::from(drive.capacity);
    if c <= board.len() {
        let mut list = [0; 12288];
        let n = pieces::listing::list_pieces(board, c, &mut list);
        println!(rt; "capacity {c}, position {}", drive.position)?;
        println!(rt; " stream  start leaves")?;
        show_pieces(rt, &list[..n])?;
    }
    Ok(())
}

fn main(rt: HostRuntime) -> io::Result<()> {
    let mut room = text_room();
    let sheet = read_text(rt.reader(), &mut room)?;
    let mut board = [0; 4095];
    let Returned { drive, answer } = sheets::read_pieces(sheet, &mut board);
    match answer {
        Ok(()) => show_board(&rt, drive, &board),
        Err(why) => println!(rt; "refused {}", why.number()),
    }
}
