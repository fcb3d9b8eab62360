// The library as a host in another language links it. host/talctwill.h declares what is exported here, and says what each call does.

#![tactic(auto)]

ghost use Rattle.talctwill.specs.InNumbers.{LineInNumbers};

// What a call for a line answers, as C has it: C has no `Result`.
#[repr(C)]
#[derive(Clone, Copy)]
pub struct LineAnswer {
    pub number: u32,
    pub length: usize,
}

// The next line of a journal's listing, after so many already given (N3).
#[unsafe(no_mangle)]
pub extern "C" fn talctwill_next_line(
    journal: &[u8],
    given: usize,
    scratch: &mut [u8],
) -> LineAnswer
    ensures { LineInNumbers journal.now given scratch.old result scratch.new }
{
    match line_by_line::next_line(journal, given, scratch) {
        Ok(length) => LineAnswer { number: 0, length },
        Err(why) => LineAnswer {
            number: u32::from(u8::from(why)),
            length: 0,
        },
    }
}
