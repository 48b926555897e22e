//! What the contracts do not promise: that each value is dropped once, and that allocations
//! succeed.
//!
//! If an allocation fails, the state after the failure is checked and the call is repeated once. So
//! the tests also pass if any one call of the allocator fails: `tests/program/test_raw_memory.py`
//! fails each in turn.
use crate::asserts::{assert_none, expect};
use oa_cells::{Cells, Row};
use std::alloc::{AllocError, Global};
use std::cell::Cell;
use std::mem::size_of;
use std::rt::HostRuntime;

/// A value that counts its drop. Its alignment is 16.
struct Counted<'a> {
    number: u128,
    drops: &'a Cell<usize>,
}

impl Drop for Counted<'_> {
    fn drop(self) {
        let Counted { number: _, drops } = self;
        drops.set(drops.get().wrapping_add(1));
    }
}

/// Why no cells were made: an allocation failed, or `fill` failed at this index.
#[derive(Clone, Copy, PartialEq, Eq)]
pub enum CellsRefusal {
    Memory,
    At(usize),
}

impl From<AllocError> for CellsRefusal {
    fn from(_: AllocError) -> CellsRefusal {
        CellsRefusal::Memory
    }
}

/// Makes the value of index `number`, and fails at the index `refuse`.
fn make_counted<'a>(
    number: usize,
    refuse: usize,
    drops: &'a Cell<usize>,
) -> Result<Counted<'a>, CellsRefusal> {
    if number == refuse {
        return Err(CellsRefusal::At(number));
    }
    Ok(Counted {
        number: number as u128,
        drops,
    })
}

/// Makes cells numbered by their indices, and fails at the index `refuse`.
fn fill_once<'a>(
    alloc: Global,
    len: usize,
    refuse: usize,
    drops: &'a Cell<usize>,
) -> Result<Cells<Counted<'a>>, CellsRefusal> {
    Cells::filled_by(alloc, len, |i| make_counted(i, refuse, drops))
}

/// Makes cells numbered by their indices, and fails at the index `refuse`. If the allocation fails,
/// no cell was made.
fn filled<'a>(
    alloc: Global,
    len: usize,
    refuse: usize,
    drops: &'a Cell<usize>,
) -> Result<Cells<Counted<'a>>, CellsRefusal> {
    match fill_once(alloc, len, refuse, drops) {
        Err(CellsRefusal::Memory) if drops.get() == 0 => fill_once(alloc, len, refuse, drops),
        answer => answer,
    }
}

/// Returns whether there are `len` cells, each numbered by its index.
fn are_numbered(cells: &Cells<Counted<'_>>, len: usize) -> bool {
    for (i, cell) in cells.as_slice().iter().enumerate() {
        if cell.number != i as u128 {
            return false;
        }
    }
    cells.len() == len
}

/// Returns whether a fill of four cells that fails at this index (4: nowhere) returns this error.
fn is_told(alloc: Global, refuse: usize, drops: &Cell<usize>) -> bool {
    match filled(alloc, 4, refuse, drops) {
        Ok(cells) => refuse == 4 && are_numbered(&cells, 4) && drops.get() == 0,
        Err(error) => error == CellsRefusal::At(refuse),
    }
}

/// Returns the first index of failure for which a fill has another result; None if there is none.
fn first_other_fill(alloc: Global) -> Option<usize> {
    for refuse in 0..5 {
        let drops = Cell::new(0);
        if !is_told(alloc, refuse, &drops) || drops.get() != refuse {
            return Some(refuse);
        }
    }
    None
}

/// A resize of `from` cells to `len` that fails at the index `refuse`: the length after it, the
/// drops by then, and all drops at the end.
struct Resize {
    from: usize,
    len: usize,
    refuse: usize,
    answer: Result<(), CellsRefusal>,
    left: usize,
    dropped: usize,
    all: usize,
}

/// Resizes, and their results.
const RESIZES: [Resize; 7] = [
    Resize {
        from: 3,
        len: 5,
        refuse: 9,
        answer: Ok(()),
        left: 5,
        dropped: 0,
        all: 5,
    },
    Resize {
        from: 3,
        len: 5,
        refuse: 3,
        answer: Err(CellsRefusal::At(3)),
        left: 3,
        dropped: 0,
        all: 3,
    },
    Resize {
        from: 3,
        len: 5,
        refuse: 4,
        answer: Err(CellsRefusal::At(4)),
        left: 3,
        dropped: 1,
        all: 4,
    },
    Resize {
        from: 3,
        len: 3,
        refuse: 9,
        answer: Ok(()),
        left: 3,
        dropped: 0,
        all: 3,
    },
    Resize {
        from: 3,
        len: 1,
        refuse: 9,
        answer: Ok(()),
        left: 1,
        dropped: 2,
        all: 3,
    },
    Resize {
        from: 3,
        len: 0,
        refuse: 9,
        answer: Ok(()),
        left: 0,
        dropped: 3,
        all: 3,
    },
    Resize {
        from: 0,
        len: 2,
        refuse: 9,
        answer: Ok(()),
        left: 2,
        dropped: 0,
        all: 2,
    },
];

/// Resizes the cells as the row says.
fn resize_once<'a>(
    cells: &mut Cells<Counted<'a>>,
    row: &Resize,
    drops: &'a Cell<usize>,
) -> Result<(), CellsRefusal> {
    cells.resized(row.len, |i| make_counted(i, row.refuse, drops))
}

/// Resizes the cells. If the allocation fails, the cells are unchanged and none was dropped.
fn resized<'a>(
    cells: &mut Cells<Counted<'a>>,
    row: &Resize,
    drops: &'a Cell<usize>,
) -> Result<(), CellsRefusal> {
    match resize_once(cells, row, drops) {
        Err(CellsRefusal::Memory) if are_numbered(cells, row.from) && drops.get() == 0 => {
            resize_once(cells, row, drops)
        }
        answer => answer,
    }
}

/// Returns whether the resize has the result in the row.
fn is_resized(alloc: Global, row: &Resize, drops: &Cell<usize>) -> bool {
    let Ok(mut cells) = filled(alloc, row.from, 9, drops) else {
        return false;
    };
    resized(&mut cells, row, drops) == row.answer
        && are_numbered(&cells, row.left)
        && drops.get() == row.dropped
}

/// Returns the length and the index of the first row with another result.
fn first_other_resize(alloc: Global) -> Option<(usize, usize)> {
    for row in RESIZES.iter() {
        let drops = Cell::new(0);
        if !is_resized(alloc, row, &drops) || drops.get() != row.all {
            return Some((row.len, row.refuse));
        }
    }
    None
}

/// Replaces the second of three cells. Returns the number of the old cell, and the numbers of the
/// three cells.
fn replaced<'a>(
    cells: &mut Cells<Counted<'a>>,
    drops: &'a Cell<usize>,
) -> Option<(u128, [u128; 3])> {
    if cells.len() != 3 {
        return None;
    }
    let was = cells.replace(1, Counted { number: 7, drops });
    let now = [
        cells.get(0).number,
        cells.get(1).number,
        cells.get(2).number,
    ];
    Some((was.number, now))
}

/// Returns whether `replace` returns the old cell, which is dropped once.
fn is_replaced(alloc: Global, drops: &Cell<usize>) -> bool {
    let Ok(mut cells) = filled(alloc, 3, 9, drops) else {
        return false;
    };
    replaced(&mut cells, drops) == Some((1, [0, 7, 2])) && drops.get() == 1
}

#[test]
fn each_cell_is_dropped_once(rt: HostRuntime) {
    let alloc = rt.alloc();
    assert_none(&rt, first_other_fill(alloc));
    assert_none(&rt, first_other_resize(alloc));
    let drops = Cell::new(0);
    expect(
        &rt,
        "replaced",
        is_replaced(alloc, &drops) && drops.get() == 4,
    );
}

/// Makes cells of one value. Err: an allocation fails, or the index is `refuse`.
pub fn made<T: Copy>(
    alloc: Global,
    len: usize,
    refuse: usize,
    value: T,
) -> Result<Cells<T>, CellsRefusal> {
    Cells::filled_by(alloc, len, |i| {
        if i == refuse {
            return Err(CellsRefusal::At(i));
        }
        Ok::<T, CellsRefusal>(value)
    })
}

/// Returns whether a fill of the largest number of cells of size 0 fails at the given index. If an
/// allocation fails, the fill is repeated once.
fn are_many(alloc: Global) -> bool {
    match made(alloc, 1 << 62, 2, ()) {
        Err(CellsRefusal::Memory) => made(alloc, 1 << 62, 2, ()).err() == Some(CellsRefusal::At(2)),
        answer => answer.err() == Some(CellsRefusal::At(2)),
    }
}

/// Returns whether the number of cells is bounded by their bytes. 2 ^ 62 values of size 0 need no
/// bytes and fit in a block; 2 ^ 59 values of sixteen bytes would need 2 ^ 63 bytes.
fn are_bounded(alloc: Global) -> bool {
    are_many(alloc) && made(alloc, 1 << 59, 2, 7u128).err() == Some(CellsRefusal::Memory)
}

/// Returns whether a row has the size of one word, and cells have that of two.
fn are_small() -> bool {
    size_of::<Row<u8>>() == size_of::<usize>() && size_of::<Cells<u8>>() == 2 * size_of::<usize>()
}

#[test]
fn cells_are_bounded_and_small(rt: HostRuntime) {
    let alloc = rt.alloc();
    expect(&rt, "sizes", are_bounded(alloc) && are_small());
}
