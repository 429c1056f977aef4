// Tests of the library; the values expected are worked out by hand.
#![tactic(auto)]

ghost use Rattle.std.specs.Prelude.{[], ◌∷◌};
ghost use Rattle.region.specs.Regions.{shown};
ghost use Rattle.region.specs.Slots.{slot_range, slot_place};
ghost use Rattle.region.specs.Grounds.{KeepsMeaning};

#[cfg(test)]
mod tests {
    use address::address::{Address, GuestAddress, MemoryRegionAddress};
    use address::permissions::Permissions;
    use backend::backend::GuestMemoryBackend;
    use collection::collection::GuestRegionCollection;
    use frames::memory::FrameMemory;
    use pieces::bytes::bytes_of;
    use pieces::piece::{PhysicalCursor, Piece};
    use refusal::Refusal;
    use region::region::{AddressRange, GuestMemoryRegion};
    use region::slot::{RamRegion, SlotRegion};
    use std::test::Fail;
    use table::error::GuestRegionCollectionError;

    const TOP: u64 = u64::MAX;

    fn ram(start: u64, len: u64, place: u64) -> RamRegion {
        RamRegion {
            start: GuestAddress(start),
            len,
            place,
        }
    }

    fn window(start: u64, len: u64) -> SlotRegion {
        SlotRegion::Window {
            start: GuestAddress(start),
            len,
        }
    }

    // The number of a refusal, and the index or address that is told with it.
    fn told(refusal: Refusal) -> (u8, u64) {
        let detail = match refusal {
            Refusal::BadRegion(index) => index,
            Refusal::InvalidGuestAddress(addr) => addr,
            _ => 0,
        };
        (refusal.number(), detail)
    }

    fn raw<A: Address>(addr: Option<A>) -> Option<u64> {
        addr.map(|addr| addr.raw_value())
    }

    #[test]
    fn sums_of_addresses(rt: HostRuntime) {
        for (addr, other, sum, difference) in [
            (0, 0, Some(0), Some(0)),
            (0, 1, Some(1), None),
            (0, TOP, Some(TOP), None),
            (TOP, 0, Some(TOP), Some(TOP)),
            (TOP, 1, None, Some(TOP - 1)),
            (TOP, TOP, None, Some(0)),
        ] {
            assert_eq!(rt; raw(GuestAddress(addr).checked_add(other)), sum);
            assert_eq!(rt; raw(GuestAddress(addr).checked_sub(other)), difference);
            assert_eq!(rt; raw(MemoryRegionAddress(addr).checked_add(other)), sum);
            assert_eq!(rt;
                GuestAddress(addr).checked_offset_from(GuestAddress(other)),
                difference
            );
        }
        for (addr, other, sum, difference) in [
            (0, 1, (1, false), (TOP, true)),
            (TOP, 0, (TOP, false), (TOP, false)),
            (TOP, 1, (0, true), (TOP - 1, false)),
            (TOP, TOP, (TOP - 1, true), (0, false)),
        ] {
            let (above, over) = GuestAddress(addr).overflowing_add(other);
            assert_eq!(rt; (above.0, over), sum);
            let (below, under) = GuestAddress(addr).overflowing_sub(other);
            assert_eq!(rt; (below.0, under), difference);
        }
        assert_eq!(rt; GuestAddress(0x1234).mask(0xff), 0x34);
    }

    fn allowed(held: Permissions) -> [bool; 4] {
        [
            held.allow(Permissions::No),
            held.allow(Permissions::Read),
            held.allow(Permissions::Write),
            held.allow(Permissions::ReadWrite),
        ]
    }

    fn of_raw(raw: u64) -> Result<u8, (u8, u64)> {
        Permissions::try_from(raw)
            .map(u8::from)
            .map_err(|error| told(error.into()))
    }

    #[test]
    fn permissions(rt: HostRuntime) {
        for (held, answers) in [
            (Permissions::No, [true, false, false, false]),
            (Permissions::Read, [true, true, false, false]),
            (Permissions::Write, [true, false, true, false]),
            (Permissions::ReadWrite, [true, true, true, true]),
        ] {
            assert_eq!(rt; allowed(held), answers);
            assert_eq!(rt; held.has_write(), answers[2]);
        }
        for (raw, answer) in [
            (0, Ok(0)),
            (1, Ok(1)),
            (2, Ok(2)),
            (3, Ok(3)),
            (4, Err((14, 0))),
            (TOP, Err((14, 0))),
        ] {
            assert_eq!(rt; of_raw(raw), answer);
        }
        assert_eq!(rt; u8::from(Permissions::Read.union(Permissions::Write)), 3);
        assert_eq!(rt;
            u8::from(Permissions::Read.intersection(Permissions::Write)),
            0
        );
    }

    #[test]
    fn ranges(rt: HostRuntime) {
        let last = ram(TOP - 0xfff, 0x1000, 0);
        assert_eq!(rt;
            (last.last_addr().0, ram(0x1000, 1, 0).last_addr().0),
            (TOP, 0x1000)
        );
        for (addr, answer) in [
            (TOP, Some(0xfff)),
            (TOP - 0xfff, Some(0)),
            (TOP - 0x1000, None),
        ] {
            assert_eq!(rt; raw(last.to_region_addr(GuestAddress(addr))), answer);
        }
        for (base, other, answer) in [
            (0xfff, 0, Some(0xfff)),
            (0xff0, 0xf, Some(0xfff)),
            (0xff0, 0x10, None),
            (2, TOP, None),
        ] {
            assert_eq!(rt;
                raw(last.checked_offset(MemoryRegionAddress(base), other)),
                answer
            );
        }
        assert_eq!(rt; raw(last.check_address(MemoryRegionAddress(0x1000))), None);
    }

    // What a call is refused for; (0, 0) where it is not.
    fn refused<T: Drop>(answer: Result<T, GuestRegionCollectionError>) -> (u8, u64) {
        answer.err().map_or((0, 0), |error| told(error.into()))
    }

    #[test]
    fn tables(rt: HostRuntime) {
        let low = ram(0x1000, 0x1000, 0);
        let high = ram(0x2000, 0x1000, 0x1000);
        let inside = ram(0x1fff, 1, 0);
        let last = ram(TOP - 0xfff, 0x1000, 0);
        let cases: [(&[RamRegion], (u8, u64)); 11] = [
            (&[], (1, 0)),
            (&[low, high], (0, 0)),
            (&[low, ram(0x2000, 0x1001, 0x1000)], (4, 1)),
            (&[low, ram(0x2000, 0, 0)], (4, 1)),
            (&[high, low], (2, 0)),
            (&[low, inside], (3, 0)),
            (&[high, low, inside], (2, 0)),
            (&[low, low, ram(0, 1, 0)], (3, 0)),
            (&[high, low, ram(0x4000, 1, 0x2000)], (4, 2)),
            (&[low, last], (0, 0)),
            (&[ram(TOP - 0xfff, 0x1001, 0)], (4, 0)),
        ];
        for (table, refusal) in cases {
            assert_eq!(rt;
                refused(GuestRegionCollection::from_regions(table, 0x2000)),
                refusal
            );
        }
    }

    fn starts(table: &[RamRegion; 4]) -> [u64; 4] {
        table.map(|region| region.start.0)
    }

    #[test]
    fn insertion(rt: HostRuntime) -> Result<(), Fail> {
        let table = [ram(0x1000, 0x1000, 0), ram(0x4000, 0x1000, 0x1000)];
        let memory = GuestRegionCollection::from_regions(&table, 0x3000)?;
        let new = ram(0x2000, 0x800, 0x2000);
        let mut small = [ram(7, 1, 0), ram(8, 1, 0)];
        assert_eq!(rt; refused(memory.insert_region(new, &mut small)), (5, 0));
        assert_eq!(rt;
            refused(memory.insert_region(ram(0x2000, 0, 0), &mut small)),
            (5, 0)
        );
        assert_eq!(rt; (small[0].start.0, small[1].start.0), (7, 8));
        let mut dest = [ram(5, 1, 0), ram(6, 1, 0), ram(7, 1, 0), ram(8, 1, 0)];
        assert_eq!(rt;
            refused(memory.insert_region(ram(0x1fff, 1, 0x3000), &mut dest)),
            (4, 0)
        );
        assert_eq!(rt;
            refused(memory.insert_region(ram(0x1fff, 1, 0), &mut dest)),
            (3, 0)
        );
        assert_eq!(rt;
            refused(memory.insert_region(ram(0x3fff, 2, 0), &mut dest)),
            (3, 0)
        );
        assert_eq!(rt; starts(&dest), [5, 6, 7, 8]);
        assert_eq!(rt; memory.insert_region(new, &mut dest).ok(), Some(3));
        assert_eq!(rt; starts(&dest), [0x1000, 0x2000, 0x4000, 8]);
        assert_eq!(rt; dest[1].place, 0x2000);
        assert_eq!(rt;
            refused(GuestRegionCollection::from_edited(&dest, 3, 0x3000)),
            (0, 0)
        );
        assert_eq!(rt;
            refused(GuestRegionCollection::from_edited(&dest, 4, 0x3000)),
            (2, 0)
        );
        assert_eq!(rt;
            refused(GuestRegionCollection::from_edited(&dest, 5, 0x3000)),
            (5, 0)
        );
        Ok(())
    }

    // The number of regions left and the start of the removed one, or the refusal.
    fn removed(
        memory: &GuestRegionCollection<RamRegion>,
        start: u64,
        len: u64,
        dest: &mut [RamRegion],
    ) -> Result<(usize, u64), (u8, u64)> {
        memory
            .remove_region(GuestAddress(start), len, dest)
            .map(|(count, region)| (count, region.start.0))
            .map_err(|error| told(error.into()))
    }

    #[test]
    fn removal(rt: HostRuntime) -> Result<(), Fail> {
        let table = [
            ram(0x1000, 0x1000, 0),
            ram(0x2000, 0x800, 0x1000),
            ram(0x4000, 0x1000, 0x1800),
        ];
        let memory = GuestRegionCollection::from_regions(&table, 0x3000)?;
        let mut dest = [ram(5, 1, 0), ram(6, 1, 0), ram(7, 1, 0), ram(8, 1, 0)];
        assert_eq!(rt; removed(&memory, 0x2000, 0x7ff, &mut dest), Err((1, 0)));
        assert_eq!(rt; removed(&memory, 0x2001, 0x800, &mut dest), Err((1, 0)));
        assert_eq!(rt; removed(&memory, 0x3000, 0x800, &mut []), Err((1, 0)));
        assert_eq!(rt; removed(&memory, 0x2000, 0x800, &mut []), Err((5, 0)));
        assert_eq!(rt; starts(&dest), [5, 6, 7, 8]);
        assert_eq!(rt; removed(&memory, 0x2000, 0x800, &mut dest), Ok((2, 0x2000)));
        assert_eq!(rt; starts(&dest), [0x1000, 0x4000, 7, 8]);
        let one = [ram(0x1000, 0x1000, 0)];
        let last = GuestRegionCollection::from_regions(&one, 0x1000)?;
        assert_eq!(rt; removed(&last, 0x1000, 0x1000, &mut []), Ok((0, 0x1000)));
        assert_eq!(rt;
            refused(GuestRegionCollection::from_edited(&dest, 0, 0x1000)),
            (0, 0)
        );
        Ok(())
    }

    // The start of the region that holds an address.
    fn found<R: GuestMemoryRegion>(memory: &GuestRegionCollection<R>, addr: u64) -> Option<u64> {
        memory
            .find_region(GuestAddress(addr))
            .map(|region| region.start_addr().0)
    }

    // The start of the region that holds an address, and the host place of the address.
    fn resolved<M: GuestMemoryBackend>(memory: &M, addr: u64) -> Option<(u64, Option<u64>)> {
        memory
            .resolve(GuestAddress(addr))
            .map(|(region, place)| (region.start_addr().0, place))
    }

    #[test]
    fn finding(rt: HostRuntime) -> Result<(), Fail> {
        let table = [
            ram(0x1000, 0x1000, 0),
            ram(0x2000, 0x800, 0x1000),
            ram(TOP - 0xfff, 0x1000, 0),
        ];
        let memory = GuestRegionCollection::from_regions(&table, 0x3000)?;
        for (addr, start) in [
            (0, None),
            (0xfff, None),
            (0x1000, Some(0x1000)),
            (0x1fff, Some(0x1000)),
            (0x2000, Some(0x2000)),
            (0x27ff, Some(0x2000)),
            (0x2800, None),
            (TOP - 0x1000, None),
            (TOP - 0xfff, Some(TOP - 0xfff)),
            (TOP, Some(TOP - 0xfff)),
        ] {
            assert_eq!(rt; found(&memory, addr), start, "{}", addr);
        }
        assert_eq!(rt; (memory.num_regions(), memory.last_addr().0), (3, TOP));
        let empty: GuestRegionCollection<RamRegion> = GuestRegionCollection::new(0x3000);
        assert_eq!(rt; found(&empty, 0), None);
        assert_eq!(rt;
            (empty.num_regions(), empty.last_addr().0, empty.host_len()),
            (0, 0, 0x3000)
        );
        Ok(())
    }

    #[test]
    fn slots(rt: HostRuntime) -> Result<(), Fail> {
        let table = [
            SlotRegion::Ram(ram(0x1000, 0x1000, 0x20)),
            window(0x2000, 0x1000),
        ];
        let memory = GuestRegionCollection::from_regions(&table, 0x1020)?;
        for (addr, answer) in [
            (0xfff, None),
            (0x1fff, Some((0x1000, Some(0x101f)))),
            (0x2000, Some((0x2000, None))),
            (0x2fff, Some((0x2000, None))),
            (0x3000, None),
        ] {
            assert_eq!(rt; resolved(&memory, addr), answer, "{}", addr);
            assert_eq!(rt;
                memory.address_in_range(GuestAddress(addr)),
                answer.is_some(),
                "{}",
                addr
            );
        }
        let last = GuestAddress(0x2fff);
        assert_eq!(rt; raw(memory.checked_offset(last, 0)), Some(0x2fff));
        assert_eq!(rt; raw(memory.checked_offset(last, 1)), None);
        assert_eq!(rt; raw(memory.checked_offset(last, TOP)), None);
        Ok(())
    }

    #[test]
    fn refused_frames(rt: HostRuntime) {
        let cases: [(u64, &[u32], u64, (u8, u64)); 9] = [
            (0x1001, &[1, 9], 0x1000, (4, 0)),
            (0x1000, &[], 0x1000, (4, 0)),
            (0x1000, &[0; 1024], 0, (0, 0)),
            (0x1000, &[0; 1025], 0, (4, 0)),
            (TOP - 0xfff, &[1], 0x1000, (0, 0)),
            (TOP - 0xfff, &[1, 1], 0x1000, (4, 0)),
            (0, &[2, 0, 3, 4], 0x2fff, (4, 2)),
            (0, &[2, 0, 3, 4], 0x3000, (4, 3)),
            (0, &[2, 0, 3, 4], 0x4000, (0, 0)),
        ];
        for (base, entries, host_len, refusal) in cases {
            assert_eq!(rt;
                refused(FrameMemory::new(GuestAddress(base), entries, host_len)),
                refusal
            );
        }
    }

    #[test]
    fn found_frames(rt: HostRuntime) -> Result<(), Fail> {
        let entries: [u32; 4] = [2, 0, 1, 0];
        let memory = FrameMemory::new(GuestAddress(0x10000), &entries, 0x2000)?;
        assert_eq!(rt; (memory.num_regions(), memory.last_addr().0), (2, 0x12fff));
        for (addr, answer) in [
            (0xffff, None),
            (0x10000, Some((0x10000, Some(0x1000)))),
            (0x10fff, Some((0x10000, Some(0x1fff)))),
            (0x11000, None),
            (0x11fff, None),
            (0x12000, Some((0x12000, Some(0)))),
            (0x12fff, Some((0x12000, Some(0xfff)))),
            (0x13000, None),
            (TOP, None),
        ] {
            assert_eq!(rt; resolved(&memory, addr), answer, "{}", addr);
        }
        let present: [u32; 1] = [1];
        let high = FrameMemory::new(GuestAddress(TOP - 0xfff), &present, 0x1000)?;
        assert_eq!(rt;
            (high.last_addr().0, resolved(&high, TOP)),
            (TOP, Some((TOP - 0xfff, Some(0xfff))))
        );
        let absent: [u32; 1] = [0];
        let none = FrameMemory::new(GuestAddress(0x1000), &absent, 0)?;
        assert_eq!(rt; (none.num_regions(), none.last_addr().0), (0, 0));
        Ok(())
    }

    // A draw: the place and length of the piece, or the refusal.
    fn drawn<M: GuestMemoryBackend>(
        cursor: &mut PhysicalCursor,
        memory: &M,
    ) -> Result<Option<(u64, u64)>, (u8, u64)> {
        cursor
            .draw(memory)
            .map(|piece| piece.map(|piece| (piece.place, piece.len)))
            .map_err(|error| told(error.into()))
    }

    #[test]
    fn draws(rt: HostRuntime) -> Result<(), Fail> {
        let table = [
            ram(0x1000, 0x1000, 0),
            ram(0x2000, 0x800, 0x1000),
            ram(0x4000, 0x1000, 0x1800),
        ];
        let memory = GuestRegionCollection::from_regions(&table, 0x3000)?;
        let mut cursor = PhysicalCursor::new(GuestAddress(0x1f00), 0x200);
        assert_eq!(rt; drawn(&mut cursor, &memory), Ok(Some((0xf00, 0x100))));
        assert_eq!(rt; drawn(&mut cursor, &memory), Ok(Some((0x1000, 0x100))));
        assert_eq!(rt; drawn(&mut cursor, &memory), Ok(None));
        let mut past = PhysicalCursor::new(GuestAddress(0x2400), 0x1000);
        assert_eq!(rt; drawn(&mut past, &memory), Ok(Some((0x1400, 0x400))));
        assert_eq!(rt; drawn(&mut past, &memory), Err((8, 0x2800)));
        assert_eq!(rt; drawn(&mut past, &memory), Ok(None));
        let mut none = PhysicalCursor::new(GuestAddress(0), 0);
        assert_eq!(rt; drawn(&mut none, &memory), Ok(None));
        Ok(())
    }

    #[test]
    fn draws_at_the_ends(rt: HostRuntime) -> Result<(), Fail> {
        let table = [ram(0, 0x1000, 0), ram(TOP - 0xfff, 0x1000, 0x1000)];
        let memory = GuestRegionCollection::from_regions(&table, 0x2000)?;
        let mut round = PhysicalCursor::new(GuestAddress(TOP - 0xf), 0x20);
        assert_eq!(rt; drawn(&mut round, &memory), Ok(Some((0x1ff0, 0x10))));
        assert_eq!(rt; drawn(&mut round, &memory), Ok(Some((0, 0x10))));
        assert_eq!(rt; drawn(&mut round, &memory), Ok(None));
        let slots = [
            SlotRegion::Ram(ram(0x1000, 0x1000, 0)),
            window(0x2000, 0x1000),
        ];
        let devices = GuestRegionCollection::from_regions(&slots, 0x1000)?;
        let mut cursor = PhysicalCursor::new(GuestAddress(0x1ffe), 4);
        assert_eq!(rt; drawn(&mut cursor, &devices), Ok(Some((0xffe, 2))));
        assert_eq!(rt; drawn(&mut cursor, &devices), Err((10, 0)));
        assert_eq!(rt; drawn(&mut cursor, &devices), Ok(None));
        Ok(())
    }

    #[test]
    fn draws_of_frames(rt: HostRuntime) -> Result<(), Fail> {
        let entries: [u32; 3] = [2, 1, 0];
        let memory = FrameMemory::new(GuestAddress(0x10000), &entries, 0x2000)?;
        let mut cursor = PhysicalCursor::new(GuestAddress(0x10ff0), 0x2000);
        assert_eq!(rt; drawn(&mut cursor, &memory), Ok(Some((0x1ff0, 0x10))));
        assert_eq!(rt; drawn(&mut cursor, &memory), Ok(Some((0, 0x1000))));
        assert_eq!(rt; drawn(&mut cursor, &memory), Err((8, 0x12000)));
        Ok(())
    }

    // A backend of one's own: one region, of which nothing was asked when it was made. Some of its values
    // keep their meaning, some do not.
    #[derive(Drop)]
    struct OneRegion {
        region: SlotRegion,
        host_len: u64,
    }

    impl GuestMemoryBackend for OneRegion {
        ghost meant = { λ b. record { host = b.host_len; regions = shown slot_range slot_place b.region ∷ [] } };

        ghost lawful = { λ b. KeepsMeaning (record { host = b.host_len; regions = shown slot_range slot_place b.region ∷ [] }) };

        ghost keeps = { λ b h. h };

        fn host_len(&self) -> u64 {
            self.host_len
        }

        fn region_at(&self, addr: GuestAddress) -> Option<SlotRegion> {
            let region = self.region;
            region.to_region_addr(addr).map(|_| region)
        }
    }

    #[test]
    fn draws_of_an_own_backend(rt: HostRuntime) {
        // the region ends within the host length, or it does not: what is drawn does in either case
        for (host_len, count, answer) in [
            (0x1000, 0x20, Ok(Some((0xff8, 8)))),
            (0xffc, 0x20, Err((10, 0))),
            (0xffc, 4, Ok(Some((0xff8, 4)))),
        ] {
            let memory = OneRegion {
                region: SlotRegion::Ram(ram(0x1000, 0x1000, 0)),
                host_len,
            };
            let mut cursor = PhysicalCursor::new(GuestAddress(0x1ff8), count);
            assert_eq!(rt; drawn(&mut cursor, &memory), answer);
        }
    }

    // The length and the first byte of a piece, or the refusal.
    fn bytes(host: &[u8], place: u64, len: u64) -> Result<(usize, Option<u8>), (u8, u64)> {
        let memory: GuestRegionCollection<RamRegion> = GuestRegionCollection::new(8);
        bytes_of(&memory, host, Piece { place, len })
            .map(|part| (part.len(), part.first().copied()))
            .map_err(|error| told(error.into()))
    }

    #[test]
    fn bytes_of_pieces(rt: HostRuntime) {
        let host = [10, 11, 12, 13, 14, 15, 16, 17];
        for (place, len, answer) in [
            (3, 4, Ok((4, Some(13)))),
            (0, 8, Ok((8, Some(10)))),
            (8, 0, Ok((0, None))),
            (3, 6, Err((11, 0))),
            (9, 0, Err((11, 0))),
            (1, TOP, Err((11, 0))),
        ] {
            assert_eq!(rt; bytes(&host, place, len), answer);
        }
        assert_eq!(rt; bytes(&host[0..7], 9, 0), Err((7, 0)));
    }
}
