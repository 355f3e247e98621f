// The dump program (document 01, "The item list and the dump program"): reads a file from standard input, and writes what is to be said
// of it to standard output.

#![tactic(auto)]

fn main() {
    // One byte more than the largest good file: 8 bytes of sizes, 4,096 of descriptor and 32,768 of data. A longer file is refused by its sizes
    // alone, or since it does not fit them, so what follows these bytes changes nothing (`rest_unseen` of crate listing).
    let mut file = [0u8; 36873];
    let n = io::read_full(0, &mut file);
    let mut text = [0u8; 90112];
    let m = listing::write_dump(&file[..n], &mut text);
    io::write_all(1, &text[..m]);
}
