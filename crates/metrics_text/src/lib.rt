//! What is measured of a server, and the text that a monitoring system reads it as: the text format 0.0.4 of Prometheus.
#![tactic(auto)]

mod about;
mod histogram;
mod image_family;
mod measures;
mod places;
mod print;
mod publication_holes;
mod sends;
mod settle_times;

pub use about::RecorderAbout;
pub use measures::{
    ArchiveMeasures, ClientMeasures, DatagramMeasures, ImageMeasures, Measures, RecorderMeasures,
    RecordingMeasures, ReplayMeasures, ResumeMeasures,
};
pub use places::{PlaceMeasures, RefusedMeasures};
pub use print::print_metrics;
pub use sends::{SendMeasures, SendsMeasures};
pub use settle_times::{SettleBucket, SettleTimes};
