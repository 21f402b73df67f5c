// Ringings over new wires; and one of four boxes, of which two may fall, with its row and the orders in hand.
use base::Refusal;
use call_lists::make_calls;
use fixtures::{NewWire, proposals};
use machine::{Place, Standing};
use promise::{Reply, Request};
use proposals::{Piece, Proposal};
use ringing::{Ringing, StrikeOrder};
use sets::RoundNumber;
use std::process::Abort;
use wire::Wire;

pub(crate) type Answer = Result<Reply<Piece>, Refusal>;

pub(crate) const DONE: Answer = Ok(Reply::Done);

pub(crate) const UP: Answer = Ok(Reply::Told(Standing::Up));

// No call answers this.
pub(crate) const UNTOUCHED: Answer = Err(Refusal::Entry);

pub(crate) fn down(round: u32) -> Answer {
    Ok(Reply::Told(Standing::Down(RoundNumber(round))))
}

pub(crate) fn drawn(round: u32) -> Answer {
    Ok(Reply::Drawn(RoundNumber(round)))
}

pub(crate) fn make<W: NewWire, K: Proposal>(
    t: u32,
    row: &mut [Place<K>],
    proposals: &[K],
) -> Result<Ringing<W>, Refusal> {
    let n = u32::try_from(proposals.len()).map_err(|_| Refusal::Company)?;
    Ok(Ringing::make(n, t, W::new_wire(n)?, row, proposals)?)
}

pub(crate) struct OfFour<W: Wire> {
    pub(crate) ringing: Ringing<W>,
    pub(crate) row: [Place<Piece>; 4],
    pub(crate) orders: [Option<StrikeOrder>; 4],
}

impl<W: NewWire> OfFour<W> {
    fn make(row: &mut [Place<Piece>]) -> Result<Ringing<W>, Refusal> {
        make(2, row, &proposals()?)
    }

    // After these calls, of which none is refused.
    pub(crate) fn after(rt: &impl Abort, calls: &[Request]) -> OfFour<W> {
        let mut row = [Place::default(); 4];
        let mut ringing = match OfFour::make(&mut row) {
            Ok(ringing) => ringing,
            Err(refusal) => panic!(rt; "refused {refusal}"),
        };
        let mut orders = [None, None, None, None];
        let mut answers = [DONE; 8];
        let made = make_calls(&mut ringing, &mut row, &mut orders, calls, &mut answers);
        assert!(rt;
            made.is_ok() && answers.iter().all(Result::is_ok),
            "{calls:?}"
        );
        OfFour {
            ringing,
            row,
            orders,
        }
    }

    // Each call answers what stands beside it, and a place behind the answer stays.
    pub(crate) fn answers(&mut self, rt: &impl Abort, table: &[(Request, Answer)]) {
        for (request, wanted) in table {
            let mut answers = [UNTOUCHED; 2];
            let OfFour {
                ringing,
                row,
                orders,
            } = self;
            let made = make_calls(ringing, row, orders, &[*request], &mut answers);
            assert_eq!(rt; made, Ok(()));
            assert_eq!(rt; answers, [*wanted, UNTOUCHED], "{request:?}");
        }
    }

    // No order is in hand.
    pub(crate) fn end(self, rt: &impl Abort) {
        let OfFour {
            ringing: _,
            row: _,
            orders: [first, second, third, fourth],
        } = self;
        is_free(rt, first);
        is_free(rt, second);
        is_free(rt, third);
        is_free(rt, fourth);
    }
}

pub(crate) fn is_free(rt: &impl Abort, slot: Option<StrikeOrder>) {
    match slot {
        None => {}
        Some(_) => panic!(rt; "an order is in hand"),
    }
}
