//! Passes over a row of a board.

use super::*;

#[test]
fn what_was_read_is_a_prefix_of_what_was_put(rt: HostRuntime) -> Result<(), Fail> {
    let (board, mut first) = row_board(rt.alloc())?;
    let mut writer = split_pass(&board, &mut first, 1, Some(1));
    let mut reader = split_pass(&board, &mut first, 1, None);
    assert_eq!(rt; read_next(&board, &mut reader), None);
    put_next(&board, &mut writer, 50);
    put_next(&board, &mut writer, 60);
    assert_eq!(rt; read_next(&board, &mut reader), Some(50));
    let passes = vec![in rt.alloc(); writer, reader]?;
    let seat = join_passes(&board, first, passes);
    board.close(seat);
    Ok(())
}
