//! A session that ends by itself.
use crate::service::Service;
use album_sessions::{ServiceNames, Session};
use album_stamps::Refusal;
use std::sync::Wait;

/// A session, which ends where it is let go. So a caller may leave by `?` while it has one.
pub struct OwnedSession<J: ServiceNames, R: Wait + Copy> {
    pub rt: R,
    pub session: Session<J>,
}

impl<J: ServiceNames, R: Wait + Copy> Drop for OwnedSession<J, R> {
    fn drop(self) {
        let OwnedSession { rt, session } = self;
        session.end(&rt);
    }
}

impl<J: ServiceNames, R: Wait + Copy> OwnedSession<J, R> {
    /// A new session of the service.
    ///
    /// # Errors
    ///
    /// As `Service::session`.
    pub fn begin(rt: &R, service: &Service<J>) -> Result<OwnedSession<J, R>, Refusal> {
        let session = service.session(rt)?;
        Ok(OwnedSession { rt: *rt, session })
    }
}
