// The writer over kept sheets: its length or refusal, the bytes after the listing, and the listing.
use listing::writer::write;
use sheet::kept::Sheet;
use std::io::Stdout;

// Whether every byte from a position on is 255.
pub(crate) fn untouched(room: &[u8], from: usize) -> bool {
    room.iter().skip(from).all(|byte| *byte == 255)
}

// A line for the listing in a buffer, which is filled with bytes 255 before, with whether those after it are so still; then the listing.
fn read_room(out: Stdout, sheet: Sheet, room: &mut [u8]) {
    room.fill(255);
    let length = write(sheet, room);
    let _ = print!(out; "write, room {}: ", room.len());
    match length {
        Ok(n) => {
            let _ = print!(out; "length {n}");
        }
        Err(refused) => {
            let _ = print!(out; "{refused}");
        }
    }
    let n = length.unwrap_or(0).min(room.len());
    let rest = if untouched(room, n) {
        "the other bytes kept"
    } else {
        "OTHER BYTES CHANGED"
    };
    let _ = println!(out; ", {rest}");
    let _ = out.write_all(&room[..n]);
}

// 01's listing, whose length is 133: with more room, with just enough, and with a byte less.
pub(crate) fn read_rooms(out: Stdout, sheet: Sheet) {
    read_room(out, sheet, &mut [0; 4096]);
    read_room(out, sheet, &mut [0; 133]);
    read_room(out, sheet, &mut [0; 132])
}
