//! A store in a program of one's own, opened with a picture that amy alone may read. Two users ask to read it.
#![tactic(auto)]

use album_server::{
    Ask, OwnedSession, Principal, Refusal, Service, ServiceNames, Visit, opening_of_text,
    read_item, with_service, write_answer,
};
use std::alloc::Global;

const OPENING: &str = r#"{"open":{"checked":true,"parts":2}}
{"item":"picture/0","value":{"content":"736561","group":0,"home":0,"list":0,"owner":"amy@users","title":"Sea"}}
{"item":"list/0","value":{"entries":[["allow","amy@users",1,0]]}}
{"begin":true}"#;

#[derive(Drop)]
struct TwoReads;

impl<R: std::sync::Wait + std::time::Clock + Print + Copy> Visit<R> for TwoReads {
    type Answer = Result<(), Refusal>;

    fn visit<J>(self, rt: &R, alloc: Global, service: &Service<J>) -> Result<(), Refusal>
    where
        J: ServiceNames + Send + Sync,
    {
        let mut owned = OwnedSession::begin(rt, service)?;
        let session = &mut owned.session;
        for who in ["amy@users", "bo@users"] {
            let object = read_item("picture/0").ok_or(Refusal::BadRequest)?;
            let given = session.ask_in_order(rt, &Principal::read(who)?, Ask::Read { object })?;
            let line = write_answer(alloc, session.client(), &given.answer)?;
            let _ = print!(rt; "{who}: {}", str::from_utf8(&line).unwrap_or(""));
        }
        Ok(())
    }
}

fn main(rt: HostRuntime) -> Result<(), Refusal> {
    let alloc = rt.alloc();
    with_service(rt, alloc, &opening_of_text(alloc, OPENING)?, 1, TwoReads)?
}
