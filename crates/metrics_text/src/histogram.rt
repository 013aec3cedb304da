//! A histogram as text. docs/SERVING.md, "Metrics".

ghost use Rattle.std.specs.Prelude.{◌≡◌, ◌++◌, OnOk, codes, string_bytes};
ghost use Rattle.metrics_text.specs.MetricsText.{bucket_labels, bucket_labels_begin, bucket_line, bucket_lines, family_text, histogram, time_labels};

use crate::print::{put_count, put_head, put_seconds, put_sum};
use crate::settle_times::{SettleBucket, SettleTimes};
use std::alloc::AllocError;

/// A family of how long settles took: how many took at most each time, how long all of them took, and how many there were.
#[tactic(auto, unfolding(crate::specs::MetricsText::family_text))]
pub(crate) fn put_histogram(
    out: &mut String,
    who: &str,
    name: &str,
    help: &str,
    times: &SettleTimes,
) -> Result<(), AllocError>
    ensures { OnOk result
        (string_bytes out.new ≡ string_bytes out.old ++ family_text (histogram who.now name.now help.now times.now)) }
{
    put_head(out, "histogram", name, help)?;
    put_buckets(out, who, name, &times.buckets)?;
    put_last_bucket(out, who, name, times.count)?;
    put_sum(out, who, name, times.micros)?;
    put_count(out, who, name, times.count)
}

/// The line of each bucket: how many settles took at most its time.
fn put_buckets(
    out: &mut String,
    who: &str,
    name: &str,
    buckets: &[SettleBucket],
) -> Result<(), AllocError>
    ensures { OnOk result
        (string_bytes out.new ≡ string_bytes out.old ++ bucket_lines who.now name.now 0 buckets.now) }
{
    let mut before: u64 = 0;
    for bucket in buckets {
        before = before.saturating_add(bucket.count);
        put_bucket(out, who, name, bucket.most, before)?;
    }
    Ok(())
}

/// The beginning of the labels of a bucket's line.
fn put_labels_begin(out: &mut String, who: &str) -> Result<(), AllocError>
    ensures { OnOk result (string_bytes out.new ≡ string_bytes out.old ++ bucket_labels_begin who.now) }
{
    write!(out, "{{recorder=\"{who}\",le=\"")
}

/// The labels of a bucket's line: of how many microseconds its time is.
fn put_time_labels(out: &mut String, who: &str, most: u64) -> Result<(), AllocError>
    ensures { OnOk result (string_bytes out.new ≡ string_bytes out.old ++ time_labels who.now most) }
{
    put_labels_begin(out, who)?;
    put_seconds(out, most)?;
    out.push_str("\"}")
}

/// The line of a bucket: so many settles took at most its time, in microseconds.
#[tactic(auto, unfolding(crate::specs::MetricsText::bucket_line))]
fn put_bucket(
    out: &mut String,
    who: &str,
    name: &str,
    most: u64,
    count: u64,
) -> Result<(), AllocError>
    ensures { OnOk result (string_bytes out.new
        ≡ string_bytes out.old ++ bucket_line name.now (time_labels who.now most) count) }
{
    write!(out, "{name}_bucket")?;
    put_time_labels(out, who, most)?;
    writeln!(out, " {count}")
}

/// The labels of the line of a bucket that holds all settles.
fn put_last_labels(out: &mut String, who: &str) -> Result<(), AllocError>
    ensures { OnOk result (string_bytes out.new ≡ string_bytes out.old ++ bucket_labels who.now (codes "+Inf")) }
{
    put_labels_begin(out, who)?;
    out.push_str("+Inf")?;
    out.push_str("\"}")
}

/// The line of a bucket that holds all settles.
#[tactic(auto, unfolding(crate::specs::MetricsText::bucket_line))]
fn put_last_bucket(out: &mut String, who: &str, name: &str, count: u64) -> Result<(), AllocError>
    ensures { OnOk result (string_bytes out.new
        ≡ string_bytes out.old ++ bucket_line name.now (bucket_labels who.now (codes "+Inf")) count) }
{
    write!(out, "{name}_bucket")?;
    put_last_labels(out, who)?;
    writeln!(out, " {count}")
}
