// Worked examples as tests: small drawings in a table and in strips, walked, counted and laid out.
#![tactic(auto)]

#[cfg(test)]
mod tests {
    use chart::Store;
    use chart::point::{End, Point};
    use edits::{join, remove, split, sprout, start};
    use halfedges::halfedge::FREE;
    use questions::Counts;
    use questions::counting::{counts, rounds_of};
    use questions::loops::{loop_length, same_loop};
    use questions::pieces::same_piece;
    use runs::calls::{Call, Item};
    use runs::sheets::{SheetCall, run_both};
    use std::process::Abort;
    use std::test::Fail;
    use strips::home::Home;
    use strips::sheet::Sheet;
    use table::Table;
    use turning::limits::{LINE_NAMES, MARK_BYTES, SLOTS};
    use turning::refusal::Refusal;
    use turning::{LoopSide, Turning};

    const A: Point = Point { x: 0, y: 0 };

    const B: Point = Point { x: 4, y: 0 };

    const C: Point = Point { x: 2, y: 3 };

    // Edge 1 from A to B, 2 from A to C, 3 from C to B.
    fn draw_triangle<S: Store>(rt: &impl Abort, store: &mut S) {
        assert!(rt; store.hang(1, End::new(A), End::new(B)));
        assert!(rt; store.hang(2, End::after(A, 1), End::new(C)));
        assert!(rt; store.hang(3, End::after(C, -2), End::after(B, -1)));
    }

    // Three edges from A to B; at B the third comes after the halfedge that is given.
    fn draw_three<S: Store>(rt: &impl Abort, store: &mut S, c: i16) {
        assert!(rt; store.hang(1, End::new(A), End::new(B)));
        assert!(rt; store.hang(2, End::after(A, 1), End::after(B, -1)));
        assert!(rt; store.hang(3, End::after(A, 2), End::after(B, c)));
    }

    // Next leads through the list from its first halfedge and back to it.
    fn check_loop<T: Turning>(rt: &impl Abort, t: &T, names: &[i16]) {
        let first = names.first().copied().unwrap_or(0);
        let side = LoopSide { below: t };
        let mut x = first;
        for h in names {
            assert_eq!(rt; x, *h);
            x = side.follower(x);
        }
        assert_eq!(rt; x, first);
    }

    fn count_all<T: Turning>(rt: &(impl Abort + AllocGlobal), t: &T) -> Result<Counts, Fail> {
        let heap = rt.alloc();
        let mut marks = vec![in heap; 7u8; MARK_BYTES]?;
        let mut line = vec![in heap; 7i16; LINE_NAMES]?;
        let answer = counts(t, marks.as_mut_slice(), line.as_mut_slice());
        assert!(rt; marks.iter().copied().max() == Some(0));
        assert!(rt; line.iter().copied().max() == Some(0));
        match answer {
            Ok(c) => Ok(c),
            Err(_) => Err(Fail::new("counts were refused")),
        }
    }

    #[test]
    fn triangle_has_two_loops(rt: HostRuntime) -> Result<(), Fail> {
        let mut memory = vec![in rt.alloc(); FREE; SLOTS]?;
        let mut table = Table::new(memory.as_mut_slice());
        assert_eq!(rt; table.ready(), Ok(()));
        draw_triangle(&rt, &mut table);
        check_loop(&rt, &table, &[1, -3, -2]);
        check_loop(&rt, &table, &[-1, 2, 3]);
        assert_eq!(rt; same_loop(&table, 1, -2), Ok(true));
        assert_eq!(rt; same_loop(&table, 1, -1), Ok(false));
        assert_eq!(rt; loop_length(&table, 3), Ok(3));
        assert_eq!(rt; loop_length(&table, 4), Err(Refusal::NotThere));
        let c = count_all(&rt, &table)?;
        assert_eq!(rt;
            c,
            Counts {
                vertices: 3,
                edges: 3,
                loops: 2,
                pieces: 1,
            }
        );
        assert!(rt; c.is_flat());
        Ok(())
    }

    #[test]
    fn an_edge_alone_turns_back(rt: HostRuntime) -> Result<(), Fail> {
        let mut memory = vec![in rt.alloc(); FREE; SLOTS]?;
        let mut table = Table::new(memory.as_mut_slice());
        assert!(rt; table.hang(1, End::new(B), End::new(A)));
        check_loop(&rt, &table, &[1, -1]);
        assert_eq!(rt; table.follower(1), 1);
        assert!(rt; count_all(&rt, &table)?.is_flat());
        Ok(())
    }

    #[test]
    fn three_edges_twisted_are_not_flat(rt: HostRuntime) -> Result<(), Fail> {
        let mut memory = vec![in rt.alloc(); FREE; SLOTS]?;
        let mut table = Table::new(memory.as_mut_slice());
        draw_three(&rt, &mut table, -2);
        let c = count_all(&rt, &table)?;
        assert_eq!(rt; c.loops, 1);
        assert!(rt; !c.is_flat());
        Ok(())
    }

    #[test]
    fn three_edges_side_by_side_are_flat(rt: HostRuntime) -> Result<(), Fail> {
        let mut memory = vec![in rt.alloc(); FREE; SLOTS]?;
        let mut table = Table::new(memory.as_mut_slice());
        draw_three(&rt, &mut table, -1);
        let c = count_all(&rt, &table)?;
        assert_eq!(rt; c.loops, 3);
        assert!(rt; c.is_flat());
        Ok(())
    }

    #[test]
    fn short_buffers_and_memory_are_refused(rt: HostRuntime) -> Result<(), Fail> {
        let heap = rt.alloc();
        let mut memory = vec![in heap; FREE; SLOTS - 1]?;
        let mut marks = vec![in heap; 7u8; MARK_BYTES - 1]?;
        let mut line = vec![in heap; 7i16; LINE_NAMES]?;
        let mut table = Table::new(memory.as_mut_slice());
        assert_eq!(rt; table.ready(), Err(Refusal::ShortMemory));
        assert!(rt; !table.hang(1, End::new(A), End::new(B)));
        assert_eq!(rt;
            rounds_of(&table, marks.as_mut_slice()),
            Err(Refusal::ShortBuffers)
        );
        assert_eq!(rt;
            same_piece(&table, 1, 2, marks.as_mut_slice(), line.as_mut_slice()),
            Err(Refusal::ShortBuffers)
        );
        assert!(rt; marks.iter().copied().min() == Some(7));
        assert!(rt; line.iter().copied().min() == Some(7));
        Ok(())
    }

    #[test]
    fn changes_answer_and_leave(rt: HostRuntime) -> Result<(), Fail> {
        let mut memory = vec![in rt.alloc(); FREE; SLOTS]?;
        let mut table = Table::new(memory.as_mut_slice());
        draw_triangle(&rt, &mut table);
        assert!(rt; !table.hang(3, End::new(A), End::new(B)));
        assert!(rt; !table.cleave(1, 4, B));
        assert!(rt; table.cleave(1, 4, Point { x: 2, y: 0 }));
        check_loop(&rt, &table, &[1, 4, -3, -2]);
        assert!(rt; table.lift(3));
        assert!(rt; !table.lift(3));
        check_loop(&rt, &table, &[2, -2, 1, 4, -4, -1]);
        Ok(())
    }

    #[test]
    fn triangle_cut_at_two(rt: HostRuntime) -> Result<(), Fail> {
        let mut memory = vec![in rt.alloc(); FREE; SLOTS]?;
        let mut strips = vec![in rt.alloc(); FREE; SLOTS]?;
        let mut table = Table::new(memory.as_mut_slice());
        draw_triangle(&rt, &mut table);
        let mut sheet = Sheet::new(strips.as_mut_slice());
        assert_eq!(rt; sheet.layout(&table, &[2]), Ok(()));
        assert_eq!(rt; sheet.strips(), 2);
        let one_away = Home {
            strip: 1,
            crossed: 1,
        };
        let here = Home {
            strip: 2,
            crossed: 0,
        };
        assert_eq!(rt; sheet.home(2, 1), Ok(one_away));
        assert_eq!(rt; sheet.home(2, 3), Ok(here));
        assert_eq!(rt; sheet.home(1, 3), Err(Refusal::NotThere));
        assert_eq!(rt; sheet.home(3, 1), Err(Refusal::NotThere));
        check_loop(&rt, &sheet, &[1, -3, -2]);
        Ok(())
    }

    #[test]
    fn layouts_are_refused(rt: HostRuntime) -> Result<(), Fail> {
        let mut memory = vec![in rt.alloc(); FREE; SLOTS]?;
        let mut strips = vec![in rt.alloc(); FREE; SLOTS]?;
        let table = Table::new(memory.as_mut_slice());
        let mut sheet = Sheet::new(strips.as_mut_slice());
        let many = [0i32; 32];
        assert_eq!(rt; sheet.layout(&table, &many), Err(Refusal::TooManyStrips));
        assert_eq!(rt; sheet.layout(&table, &[2, 2]), Err(Refusal::BadBorders));
        assert_eq!(rt;
            sheet.layout(&table, &[1_000_001]),
            Err(Refusal::BadBorders)
        );
        assert_eq!(rt; sheet.layout(&table, &[-1_000_000, 1_000_000]), Ok(()));
        assert_eq!(rt; sheet.strips(), 3);
        Ok(())
    }

    #[test]
    fn a_sheet_is_drawn_on_like_a_table(rt: HostRuntime) -> Result<(), Fail> {
        let mut memory = vec![in rt.alloc(); FREE; SLOTS]?;
        let mut strips = vec![in rt.alloc(); FREE; SLOTS]?;
        let table = Table::new(memory.as_mut_slice());
        let mut sheet = Sheet::new(strips.as_mut_slice());
        assert_eq!(rt; sheet.layout(&table, &[1, 2, 3]), Ok(()));
        draw_triangle(&rt, &mut sheet);
        check_loop(&rt, &sheet, &[-1, 2, 3]);
        assert!(rt; sheet.cleave(1, 4, Point { x: 2, y: 0 }));
        check_loop(&rt, &sheet, &[1, 4, -3, -2]);
        assert!(rt; sheet.lift(2));
        assert_eq!(rt;
            sheet.home(4, -3),
            Ok(Home {
                strip: 4,
                crossed: 0,
            })
        );
        assert_eq!(rt; sheet.home(2, 2), Err(Refusal::NotThere));
        Ok(())
    }

    // The triangle by edits, with every kind of refusal on the way.
    fn edit_triangle<S: Store>(rt: &(impl Abort + AllocGlobal), store: &mut S) -> Result<(), Fail> {
        let heap = rt.alloc();
        let mut marks = vec![in heap; 7u8; MARK_BYTES]?;
        let mut line = vec![in heap; 7i16; LINE_NAMES]?;
        let m = marks.as_mut_slice();
        let l = line.as_mut_slice();
        let p = Point { x: 2, y: 0 };
        assert_eq!(rt; start(store, 0, A, B), Err(Refusal::NumberOutOfRange));
        assert_eq!(rt; start(store, 1, A, A), Err(Refusal::SameEnds));
        assert_eq!(rt; start(store, 1, A, B), Ok(()));
        assert_eq!(rt; start(store, 1, C, p), Err(Refusal::NumberInUse));
        assert_eq!(rt; sprout(store, 2, 3, C), Err(Refusal::NotThere));
        assert_eq!(rt; sprout(store, 2, 1, B), Err(Refusal::PointTaken));
        assert_eq!(rt; sprout(store, 2, 1, C), Ok(()));
        assert_eq!(rt;
            join(store, 3, -2, -1, &mut m[0..9], l),
            Err(Refusal::ShortBuffers)
        );
        assert_eq!(rt; join(store, 3, 1, 2, m, l), Err(Refusal::SameEnds));
        assert_eq!(rt; join(store, 3, -2, -1, m, l), Ok(()));
        assert_eq!(rt;
            split(store, 1, 4, Point { x: 5, y: 0 }),
            Err(Refusal::NotInside)
        );
        assert_eq!(rt; split(store, 1, 4, p), Ok(()));
        assert_eq!(rt; join(store, 5, 4, 3, m, l), Err(Refusal::LoopsOfOnePiece));
        assert_eq!(rt; join(store, 5, 4, -2, m, l), Ok(()));
        assert_eq!(rt; remove(store, 6), Err(Refusal::NotThere));
        assert_eq!(rt; remove(store, 5), Ok(()));
        Ok(())
    }

    #[test]
    fn edits_on_a_table(rt: HostRuntime) -> Result<(), Fail> {
        let mut memory = vec![in rt.alloc(); FREE; SLOTS]?;
        let mut table = Table::new(memory.as_mut_slice());
        edit_triangle(&rt, &mut table)?;
        check_loop(&rt, &table, &[1, 4, -3, -2]);
        assert!(rt; count_all(&rt, &table)?.is_flat());
        Ok(())
    }

    #[test]
    fn edits_on_strips(rt: HostRuntime) -> Result<(), Fail> {
        let mut memory = vec![in rt.alloc(); FREE; SLOTS]?;
        let mut sheet = Sheet::new(memory.as_mut_slice());
        assert_eq!(rt; sheet.cut(2), Ok(()));
        edit_triangle(&rt, &mut sheet)?;
        assert_eq!(rt; sheet.cut(2), Err(Refusal::WrongBorder));
        assert_eq!(rt; sheet.cut(1_000_001), Err(Refusal::BorderOutOfRange));
        assert_eq!(rt; sheet.cut(3), Ok(()));
        assert_eq!(rt; sheet.strips(), 3);
        check_loop(&rt, &sheet, &[1, 4, -3, -2]);
        assert_eq!(rt; sheet.knit(2), Ok(()));
        assert_eq!(rt; sheet.knit(2), Err(Refusal::WrongBorder));
        assert_eq!(rt; sheet.strips(), 2);
        check_loop(&rt, &sheet, &[1, 4, -3, -2]);
        Ok(())
    }

    fn pending<C: Drop>(call: C) -> Item<C> {
        Item { call, answer: None }
    }

    fn first() -> Call {
        Call::Start {
            edge: 1,
            p: A,
            q: B,
        }
    }

    fn second() -> Call {
        Call::Sprout {
            edge: 2,
            corner: 1,
            p: C,
        }
    }

    #[test]
    fn a_sheet_and_a_table_answer_alike(rt: HostRuntime) -> Result<(), Fail> {
        let mut memory = vec![in rt.alloc(); FREE; SLOTS]?;
        let mut strips = vec![in rt.alloc(); FREE; SLOTS]?;
        let mut table = Table::new(memory.as_mut_slice());
        let mut sheet = Sheet::new(strips.as_mut_slice());
        let mut items = [pending(first()), pending(second()), pending(second())];
        let mut calls = [
            pending(SheetCall::Edit(first())),
            pending(SheetCall::Cut(2)),
            pending(SheetCall::Edit(second())),
            pending(SheetCall::Knit(3)),
            pending(SheetCall::Edit(second())),
        ];
        run_both(&mut sheet, &mut calls, &mut table, &mut items);
        assert_eq!(rt; items[2].answer, Some(Err(Refusal::NumberInUse)));
        assert_eq!(rt; calls[1].answer, Some(Ok(())));
        assert_eq!(rt; calls[3].answer, Some(Err(Refusal::WrongBorder)));
        assert_eq!(rt; calls[4].answer, items[2].answer);
        check_loop(&rt, &sheet, &[2, -2, 1, -1]);
        check_loop(&rt, &table, &[2, -2, 1, -1]);
        Ok(())
    }
}
