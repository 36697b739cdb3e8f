//! Tests of the crate cell that run its code on many values. They stand apart since a crate with tests is proved twice.
#![tactic(auto)]

#[cfg(test)]
mod tests {
    use cell::header::{Header, Kind};
    use cell::line_header::LineHeader;
    use cell::octets::cell_octets;
    use cell::refusal::Refusal;
    use cell::sorting::{SortedCell, sort_cell};
    use cell::verdict::Verdict;
    use std::test::Fail;

    const HEADERS: [u32; 6] = [
        0x0000_0000,
        0x0000_0001,
        0x0000_0009,
        0x0000_0640,
        0xbecf_ede9,
        0xffff_ffff,
    ];

    fn sent(header: u32) -> LineHeader {
        let header = Header(header);
        LineHeader {
            header,
            hec: header.check_octet(),
        }
    }

    // Each of the 40 single errors is told and mended.
    #[test]
    fn single_errors(rt: HostRuntime) {
        for word in HEADERS {
            let right = sent(word);
            assert!(rt; right.judge() == Verdict::Clean);
            for bit in 0..40u8 {
                let wrong = right.mend(bit);
                assert!(rt; wrong.judge() == Verdict::OneWrongBit(bit));
                assert!(rt; wrong.mend(bit) == right);
            }
        }
    }

    // Each of the 780 double errors is past mending.
    #[test]
    fn double_errors(rt: HostRuntime) {
        for word in HEADERS {
            for i in 0..40u8 {
                for j in 0..i {
                    assert!(rt; sent(word).mend(i).mend(j).judge() == Verdict::PastMending);
                }
            }
        }
    }

    #[test]
    fn no_bit_from_40_on(rt: HostRuntime) {
        assert!(rt; sent(0x640).mend(40) == sent(0x640));
        assert!(rt; sent(0x640).mend(255) == sent(0x640));
    }

    #[test]
    fn kinds(rt: HostRuntime) {
        assert!(rt; Header::IDLE.kind() == Kind::Idle);
        assert!(rt; Header::F3.kind() == Kind::F3);
        assert!(rt; Header(0x1000_0001).kind() == Kind::User);
        assert!(rt; Header(0x0000_0003).kind() == Kind::User);
        assert!(rt; Header(0).kind() == Kind::User);
    }

    // The payload 17, then zeros.
    fn payload() -> [u8; 48] {
        let mut payload = [0; 48];
        payload[0] = 17;
        payload
    }

    // The octets of a cell with that payload.
    fn cell(header: u32) -> [u8; 52] {
        let mut octets = [0; 52];
        octets[..4].copy_from_slice(&header.to_be_bytes());
        octets[4..].copy_from_slice(&payload());
        octets
    }

    // Sorting a cell of that payload tells an F3 cell that carries it.
    fn is_f3(header: u32) -> bool {
        let payload = payload();
        sort_cell(&cell(header)) == Ok(SortedCell::F3(&payload))
    }

    // Sorting a cell of that payload tells a user cell of this header that carries it.
    fn is_user(header: u32) -> bool {
        let payload = payload();
        sort_cell(&cell(header)) == Ok(SortedCell::User(Header(header), &payload))
    }

    #[test]
    fn sorts_by_the_header(rt: HostRuntime) {
        assert!(rt; sort_cell(&cell(0x0000_0001)) == Ok(SortedCell::Idle));
        assert!(rt; is_f3(0x0000_0009));
        assert!(rt; is_user(0x0000_0640));
        assert!(rt; is_user(0x1000_0001));
    }

    #[test]
    fn sorts_52_octets_only(rt: HostRuntime) {
        assert!(rt; sort_cell(&[0; 0]).map_err(Refusal::number) == Err(4));
        assert!(rt; sort_cell(&[0; 51]).map_err(Refusal::number) == Err(4));
        assert!(rt; sort_cell(&[0; 53]).map_err(Refusal::number) == Err(4));
        assert!(rt; sort_cell(&[0; 52]) == Ok(SortedCell::User(Header(0), &[0; 48])));
    }

    #[test]
    fn makes_52_octets(rt: HostRuntime) {
        assert!(rt; cell_octets(Header(0x0000_0640), &payload()) == cell(0x0000_0640));
        assert!(rt; cell_octets(Header(0xbecf_ede9), &payload()) == cell(0xbecf_ede9));
    }

    #[test]
    fn prints(rt: HostRuntime) -> Result<(), Fail> {
        let alloc = rt.alloc();
        let (idle, f3, user) = (Kind::Idle, Kind::F3, Kind::User);
        let kinds = format!(in alloc; "{idle:<4}|{f3:<4}|{user}|")?;
        assert!(rt; kinds.as_str() == "idle|F3  |user|");
        let header = sent(0x0000_0001);
        let octets = format!(in alloc; "{header}")?;
        assert!(rt; octets.as_str() == "00 00 00 01 52");
        let refusal = Refusal::NoneWaiting;
        let sentence = format!(in alloc; "{refusal}")?;
        assert!(rt; sentence.as_str() == "no cell waits in the source");
        Ok(())
    }
}
