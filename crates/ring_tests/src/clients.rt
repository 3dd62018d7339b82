// What clients are told: the refusals of make, write, read, give up and answer, and the last row of the journal.
use fleet::Fleet;
use journal::Journal;
use messages::Row;
use model::Refusal;
use operation::Tag;
use questions::{Answer, Kind, answer};
use requests::{give_up, make, read, write};
use sending::Memory;

// The value of row 0.
const FIRST: u32 = 7;

// A ring, and its value rows.
#[derive(Drop)]
struct Shelf {
    memory: Memory,
    values: [u32; 256],
}

// A ring that was never made.
fn unmade() -> Shelf {
    Shelf {
        memory: Memory {
            journal: Journal::empty(),
            fleet: Fleet::empty(),
        },
        values: [0; 256],
    }
}

// What a call gives, or the number of its refusal.
fn numbered<T>(given: Result<T, Refusal>) -> Result<T, u8> {
    given.map_err(|refusal| refusal.number())
}

// The answer with the first value and its tag, which is number 0 at server 0.
fn first_answer(client: u8, kind: Kind) -> Answer<u32> {
    Answer {
        tag: Tag::new(0, 0),
        client,
        kind,
        value: FIRST,
    }
}

// The calls, with their refusals as numbers.
impl Shelf {
    // Makes a ring of so many servers.
    fn make(&mut self, size: usize) -> Result<(), u8> {
        numbered(make(&mut self.memory, &mut self.values, size, FIRST))
    }

    // A write of 9.
    fn write(&mut self, client: usize, server: usize) -> Result<Row, u8> {
        numbered(write(
            &mut self.memory.journal,
            &self.memory.fleet,
            &mut self.values,
            client,
            server,
            9,
        ))
    }

    // A write of 9 that lends one value row too few.
    fn write_short(&mut self, client: usize, server: usize) -> Result<Row, u8> {
        let mut few = [0; 255];
        numbered(write(
            &mut self.memory.journal,
            &self.memory.fleet,
            &mut few,
            client,
            server,
            9,
        ))
    }

    // A read.
    fn read(&mut self, client: usize, server: usize) -> Result<Row, u8> {
        numbered(read(&mut self.memory.journal, &self.memory.fleet, client, server))
    }

    // The client gives up.
    fn give_up(&mut self, client: usize) -> Result<(), u8> {
        numbered(give_up(&mut self.memory.journal, client))
    }

    // What is told of the row.
    fn told(&self, row: usize) -> Result<Answer<u32>, u8> {
        numbered(answer(&self.memory.journal, &self.values, row))
    }
}

#[test]
fn make_wants_two_to_eight_servers_and_256_rows(rt: HostRuntime) {
    let mut shelf = unmade();
    assert_eq!(rt; shelf.make(0), Err(1));
    assert_eq!(rt; shelf.make(1), Err(1));
    assert_eq!(rt; shelf.make(9), Err(1));
    let mut few = [0; 255];
    assert_eq!(rt;
        numbered(make(&mut shelf.memory, &mut few, 9, FIRST)),
        Err(1),
        "the size first"
    );
    assert_eq!(rt;
        numbered(make(&mut shelf.memory, &mut few, 2, FIRST)),
        Err(7)
    );
    assert_eq!(rt; shelf.told(0), Err(15), "nothing was made");
    assert_eq!(rt; shelf.make(2), Ok(()));
    assert_eq!(rt; shelf.make(8), Ok(()));
    assert_eq!(rt; shelf.told(0), Ok(first_answer(0, Kind::Write)));
}

#[test]
fn write_and_read_refuse_in_order(rt: HostRuntime) {
    let mut shelf = unmade();
    assert_eq!(rt; shelf.make(2), Ok(()));
    assert_eq!(rt; (shelf.write(16, 2), shelf.read(16, 2)), (Err(2), Err(2)));
    assert_eq!(rt; (shelf.write(15, 2), shelf.read(15, 2)), (Err(3), Err(3)));
    shelf.memory.fleet.crash(1);
    assert_eq!(rt; (shelf.write(15, 1), shelf.read(15, 1)), (Err(4), Err(4)));
    assert_eq!(rt; shelf.write_short(15, 0), Err(7));
    assert_eq!(rt; shelf.write(15, 0), Ok(Row(1)));
    assert_eq!(rt; (shelf.write(15, 0), shelf.read(15, 0)), (Err(5), Err(5)));
    assert_eq!(rt; shelf.write_short(15, 0), Err(5));
}

#[test]
fn the_255th_operation_is_accepted_and_the_256th_refused(rt: HostRuntime) {
    let mut shelf = unmade();
    assert_eq!(rt; shelf.make(3), Ok(()));
    for number in 1u8..=255 {
        assert_eq!(rt; shelf.read(0, 2), Ok(Row(number)));
    }
    assert_eq!(rt; (shelf.read(0, 2), shelf.write(0, 2)), (Err(6), Err(6)));
    assert_eq!(rt; shelf.write_short(0, 2), Err(6));
    assert_eq!(rt; shelf.told(255), Ok(first_answer(0, Kind::Read)));
}

#[test]
fn a_client_gives_up_what_it_has_open(rt: HostRuntime) {
    let mut shelf = unmade();
    assert_eq!(rt; shelf.make(2), Ok(()));
    assert_eq!(rt; (shelf.give_up(16), shelf.give_up(3)), (Err(2), Err(8)));
    assert_eq!(rt; shelf.write(3, 0), Ok(Row(1)));
    assert_eq!(rt; shelf.give_up(4), Err(8), "another client's");
    assert_eq!(rt; (shelf.give_up(3), shelf.give_up(3)), (Ok(()), Err(8)));
    assert_eq!(rt; shelf.write(3, 0), Ok(Row(2)));
}

#[test]
fn an_answer_is_told_once_it_is_there(rt: HostRuntime) {
    let mut shelf = unmade();
    assert_eq!(rt;
        (shelf.write(0, 0), shelf.read(0, 0), shelf.give_up(0)),
        (Err(3), Err(3), Err(8)),
        "never made"
    );
    assert_eq!(rt; shelf.make(2), Ok(()));
    assert_eq!(rt; shelf.write(3, 0), Ok(Row(1)));
    assert_eq!(rt; shelf.read(4, 1), Ok(Row(2)));
    assert_eq!(rt;
        (shelf.told(1), shelf.told(3), shelf.told(256)),
        (Err(16), Err(15), Err(15))
    );
    assert_eq!(rt; shelf.told(2), Ok(first_answer(4, Kind::Read)));
    let few = [0; 255];
    assert_eq!(rt;
        numbered(answer(&shelf.memory.journal, &few, 1)),
        Err(16),
        "the answer first"
    );
    assert_eq!(rt; numbered(answer(&shelf.memory.journal, &few, 2)), Err(7));
}
