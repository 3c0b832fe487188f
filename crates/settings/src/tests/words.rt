use std::test::Fail;

// A table with another word at a byte offset.
pub fn with_word<const N: usize>(
    mut table: [u8; N],
    place: usize,
    word: u16,
) -> Result<[u8; N], Fail> {
    table
        .get_mut(place..)
        .and_then(|rest| rest.get_mut(0..2))
        .ok_or("no word of the table")?
        .copy_from_slice(&word.to_be_bytes());
    Ok(table)
}
