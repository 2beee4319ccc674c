// Whether a file has a word somewhere in it.
use files::calls::open_read;
use std::fs::File;
use std::io::Read;

// How many bytes of a word have come, after one more byte. Its first byte must not stand in it again, else a word that begins within another may be missed.
fn after_byte(word: &[u8], come: usize, byte: u8) -> usize {
    if word.len() <= come {
        return come;
    }
    if word[come] == byte {
        return come + 1;
    }
    usize::from(word[0] == byte)
}

// All of them, once they have come, stay so.
fn after_bytes(word: &[u8], before: usize, bytes: &[u8]) -> usize {
    bytes
        .iter()
        .fold(before, |come, byte| after_byte(word, come, *byte))
}

fn opened_lacks(mut file: File, word: &[u8]) -> bool {
    let mut piece = io::buffer();
    let mut come = 0;
    for _ in 0..u64::MAX {
        match file.read(&mut piece) {
            Ok(0) => return come < word.len(),
            Ok(n) => come = after_bytes(word, come, &piece[..n]),
            Err(_) => return false,
        }
    }
    false
}

// Whether a file was read to its end, and a word is not in it.
pub fn lacks(rt: &HostRuntime, file: &[u8], word: &[u8]) -> bool {
    open_read(rt, file).is_ok_and(|opened| opened_lacks(opened, word))
}
