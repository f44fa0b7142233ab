// The file of the diamond on two devices of the first kind.
pub(crate) const DIAMOND: [u8; 94] = [
    87, 69, 70, 84, 3, 1, 20, 0, 64, 0, 2, 84, 0, 8, 0, 3, 92, 0, 2, 0, 2, 0, 0, 0, 6, 0, 0, 0, 1,
    0, 0, 0, 1, 0, 0, 0, 4, 0, 0, 0, 8, 0, 0, 0, 2, 0, 0, 0, 1, 0, 0, 0, 3, 0, 0, 0, 9, 0, 0, 0, 2,
    0, 0, 0, 1, 0, 0, 0, 2, 0, 0, 0, 5, 0, 0, 0, 1, 0, 0, 0, 1, 0, 0, 0, 0, 1, 0, 2, 1, 3, 2, 3, 2,
    0,
];

// The file of the sheet without operators.
pub(crate) const EMPTY: [u8; 22] = [
    87, 69, 70, 84, 3, 1, 20, 0, 0, 0, 2, 20, 0, 0, 0, 3, 20, 0, 2, 0, 0, 0,
];

// The diamond's file with one byte changed.
pub(crate) fn damaged(at: usize, byte: u8) -> [u8; 94] {
    let mut file = DIAMOND;
    if let Some(place) = file.get_mut(at) {
        *place = byte;
    }
    file
}
