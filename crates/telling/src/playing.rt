// Texts of acts, one to a line, that are played line by line. A line is bytes, since it is printed again as it came, text or not.
use std::io;

/// What a text of acts is played on. An act takes it and gives it back: of a struct behind a `&mut`, two arrays can't be lent to one call.
pub trait Player: Sized + Drop {
    /// Carries out a line's act, if it has one, and prints what the act said: the player as the act leaves it.
    fn play(self, rt: &impl Print, line: &[u8]) -> io::Result<Self>;
}

/// Plays a text: prints each of its lines again, with what its act said after it.
pub fn play(rt: &impl Print, text: &[u8], mut player: impl Player) -> io::Result<()> {
    for line in text.split_inclusive(|b| *b == b'\n') {
        let line = line.strip_suffix(b"\n").unwrap_or(line);
        rt.write_all(line)?;
        player = player.play(rt, line)?;
        rt.println("")?;
    }
    Ok(())
}
