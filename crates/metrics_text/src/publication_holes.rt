//! Holes of publications that have an image. docs/SERVING.md, "Metrics".

ghost use Rattle.std.specs.Prelude.{◌≡◌, ◌++◌, OnOk, string_bytes};
ghost use Rattle.std.specs.List.{flat_map};
ghost use Rattle.metrics_text.specs.MetricsText.{family_text, hole_line, publication_holes_family, publication_labels};

use crate::measures::ImageMeasures;
use crate::print::put_head;
use std::alloc::AllocError;

/// The labels of an image's publication.
fn put_publication_labels(
    out: &mut String,
    who: &str,
    image: &ImageMeasures,
) -> Result<(), AllocError>
    ensures { OnOk result
        (string_bytes out.new ≡ string_bytes out.old ++ publication_labels who.now image.now) }
{
    write!(
        out,
        "{{recorder=\"{who}\",stream=\"{}\",session=\"{}\"}}",
        image.stream_id, image.session_id,
    )
}

#[tactic(auto, unfolding(crate::specs::MetricsText::hole_line))]
fn put_hole_line(out: &mut String, who: &str, image: &ImageMeasures) -> Result<(), AllocError>
    ensures { OnOk result (string_bytes out.new ≡ string_bytes out.old ++ hole_line who.now image.now) }
{
    out.push_str("aeron_recorder_publication_hole_bytes")?;
    put_publication_labels(out, who, image)?;
    writeln!(out, " {}", image.hole_bytes)
}

fn put_hole_lines(out: &mut String, who: &str, images: &[ImageMeasures]) -> Result<(), AllocError>
    ensures { OnOk result (string_bytes out.new
        ≡ string_bytes out.old ++ flat_map (hole_line who.now) images.now) }
{
    for image in images {
        put_hole_line(out, who, image)?;
    }
    Ok(())
}

/// A line for the publication of each image.
#[tactic(auto, unfolding(crate::specs::MetricsText::family_text))]
pub(crate) fn put_publication_holes(
    out: &mut String,
    who: &str,
    images: &[ImageMeasures],
) -> Result<(), AllocError>
    ensures { OnOk result
        (string_bytes out.new ≡ string_bytes out.old ++ family_text (publication_holes_family who.now images.now)) }
{
    put_head(
        out,
        "gauge",
        "aeron_recorder_publication_hole_bytes",
        "Bytes of holes between recordings of a publication that has an image.",
    )?;
    put_hole_lines(out, who, images)
}
