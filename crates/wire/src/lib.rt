// wire.rs: the report wire format, less the session reports. `encode` fills a lent buffer, `decode` takes the payload after the type byte.

#![tactic(auto)]

mod payload; // payload.rt: a field at a place that the length test has shown to be there
pub mod path_mtu;
pub mod receiver_report;
pub mod sender_report;
