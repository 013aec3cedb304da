//! Measures as the text that a collector reads: docs/SERVING.md, "Metrics".

use metrics_text::{
    ArchiveMeasures, ClientMeasures, DatagramMeasures, ImageMeasures, Measures, PlaceMeasures,
    RecorderAbout, RecorderMeasures, RecordingMeasures, RefusedMeasures, ReplayMeasures,
    ResumeMeasures, SendMeasures, SendsMeasures, SettleTimes, print_metrics,
};
use std::alloc::{AllocError, Global};
use std::test::*;

/// The text of `measures` begins so.
const FIRST_LINES: &str =
    "# HELP aeron_recorder_build_info The program, and the catalogues that it writes.
# TYPE aeron_recorder_build_info gauge
aeron_recorder_build_info{recorder=\"a-1\",version=\"0.1.0\",catalogue=\"2\"} 1
# HELP aeron_recorder_start_time_seconds When the server began, since 1970.
# TYPE aeron_recorder_start_time_seconds gauge
aeron_recorder_start_time_seconds{recorder=\"a-1\"} 1764405696.123000
# HELP aeron_recorder_archive_open Whether an archive is open.
# TYPE aeron_recorder_archive_open gauge
aeron_recorder_archive_open{recorder=\"a-1\"} 1
# HELP aeron_recorder_archive_broken Whether a device fault broke the archive.
# TYPE aeron_recorder_archive_broken gauge
aeron_recorder_archive_broken{recorder=\"a-1\"} 0
";

/// Lines that it has.
const LINES: [&str; 26] = [
    "aeron_recorder_history_limit_entries{recorder=\"a-1\"} 1048576\n",
    "# TYPE aeron_recorder_checkpoints_total counter\naeron_recorder_checkpoints_total{recorder=\"a-1\"} 7\n# HELP aeron_recorder_checkpoints_refused_total Checkpoints that were refused.\n# TYPE aeron_recorder_checkpoints_refused_total counter\naeron_recorder_checkpoints_refused_total{recorder=\"a-1\"} 1\n",
    "# TYPE aeron_recorder_recorded_bytes_total counter\naeron_recorder_recorded_bytes_total{recorder=\"a-1\"} 18446744073709551615\n",
    "# HELP aeron_recorder_settle_seconds Settles, and how long they took.\n# TYPE aeron_recorder_settle_seconds histogram\naeron_recorder_settle_seconds_bucket{recorder=\"a-1\",le=\"0.000050\"} 1\naeron_recorder_settle_seconds_bucket{recorder=\"a-1\",le=\"0.000100\"} 2\naeron_recorder_settle_seconds_bucket{recorder=\"a-1\",le=\"0.000250\"} 2\naeron_recorder_settle_seconds_bucket{recorder=\"a-1\",le=\"0.000500\"} 3\naeron_recorder_settle_seconds_bucket{recorder=\"a-1\",le=\"0.001000\"} 3\naeron_recorder_settle_seconds_bucket{recorder=\"a-1\",le=\"0.002500\"} 3\n",
    "aeron_recorder_settle_seconds_bucket{recorder=\"a-1\",le=\"2.500000\"} 3\naeron_recorder_settle_seconds_bucket{recorder=\"a-1\",le=\"5.000000\"} 4\naeron_recorder_settle_seconds_bucket{recorder=\"a-1\",le=\"+Inf\"} 5\naeron_recorder_settle_seconds_sum{recorder=\"a-1\"} 61.000203\naeron_recorder_settle_seconds_count{recorder=\"a-1\"} 5\n",
    "aeron_recorder_connections_total{recorder=\"a-1\"} 1\n# HELP aeron_recorder_clients Clients of the control port that are served.\n# TYPE aeron_recorder_clients gauge\naeron_recorder_clients{recorder=\"a-1\"} 4\n# HELP aeron_recorder_client_places Clients of the control port that are served at a time at most.\n# TYPE aeron_recorder_client_places gauge\naeron_recorder_client_places{recorder=\"a-1\"} 8\n",
    "aeron_recorder_open_replays{recorder=\"a-1\"} 3\n# HELP aeron_recorder_replay_position_bytes Where the next frame of an open replay begins.\n# TYPE aeron_recorder_replay_position_bytes gauge\naeron_recorder_replay_position_bytes{recorder=\"a-1\",replay=\"5\",recording=\"3\"} 4096\n",
    "# TYPE aeron_recorder_image_datagrams_total counter\naeron_recorder_image_datagrams_total{recorder=\"a-1\",image=\"0\",stream=\"1001\",session=\"-7\"} 1\naeron_recorder_image_datagrams_total{recorder=\"a-1\",image=\"12\",stream=\"-5\",session=\"8\"} 13\n",
    "# TYPE aeron_recorder_image_naks_total counter\naeron_recorder_image_naks_total{recorder=\"a-1\",image=\"0\",stream=\"1001\",session=\"-7\"} 2\n",
    "aeron_recorder_datagrams_repeated_total{recorder=\"a-1\"} 4\n",
    "# TYPE aeron_recorder_hole_bytes_total counter\naeron_recorder_hole_bytes_total{recorder=\"a-1\"} 9\n",
    "aeron_recorder_resuming{recorder=\"a-1\"} 12\n",
    "# TYPE aeron_recorder_datagrams_foreign_total counter\naeron_recorder_datagrams_foreign_total{recorder=\"a-1\"} 13\n",
    "# TYPE aeron_recorder_publications_refused_total counter\naeron_recorder_publications_refused_total{recorder=\"a-1\",cause=\"places\"} 14\naeron_recorder_publications_refused_total{recorder=\"a-1\",cause=\"recordings\"} 15\naeron_recorder_publications_refused_total{recorder=\"a-1\",cause=\"starts\"} 16\naeron_recorder_publications_refused_total{recorder=\"a-1\",cause=\"history\"} 17\naeron_recorder_publications_refused_total{recorder=\"a-1\",cause=\"broken\"} 18\naeron_recorder_publications_refused_total{recorder=\"a-1\",cause=\"memory\"} 19\naeron_recorder_publications_refused_total{recorder=\"a-1\",cause=\"other\"} 20\n",
    "# TYPE aeron_recorder_images gauge\naeron_recorder_images{recorder=\"a-1\",rank=\"recorded\"} 21\naeron_recorder_images{recorder=\"a-1\",rank=\"waiting\"} 22\naeron_recorder_images{recorder=\"a-1\",rank=\"other\"} 23\n",
    "aeron_recorder_recordings{recorder=\"a-1\"} 25\n# HELP aeron_recorder_recordings_limit Recordings that may stand.\n# TYPE aeron_recorder_recordings_limit gauge\naeron_recorder_recordings_limit{recorder=\"a-1\"} 26\n",
    "aeron_recorder_recorded_position_bytes{recorder=\"a-1\",recording=\"3\",stream=\"1001\",session=\"-7\"} 65472\n",
    "aeron_recorder_rebuilt_position_bytes{recorder=\"a-1\",image=\"0\",stream=\"1001\",session=\"-7\"} 65536\naeron_recorder_rebuilt_position_bytes{recorder=\"a-1\",image=\"12\",stream=\"-5\",session=\"8\"} 0\n",
    "aeron_recorder_consumed_position_bytes{recorder=\"a-1\",image=\"0\",stream=\"1001\",session=\"-7\"} 65504\n",
    "# TYPE aeron_recorder_image_lost_total counter\naeron_recorder_image_lost_total{recorder=\"a-1\",image=\"0\",stream=\"1001\",session=\"-7\"} 3\n",
    "# TYPE aeron_recorder_image_last_datagram_seconds gauge\naeron_recorder_image_last_datagram_seconds{recorder=\"a-1\",image=\"0\",stream=\"1001\",session=\"-7\"} 1.500000\n",
    "aeron_recorder_gap_seconds{recorder=\"a-1\",image=\"12\",stream=\"-5\",session=\"8\"} 0.250000\n",
    "aeron_recorder_gap_bytes{recorder=\"a-1\",image=\"0\",stream=\"1001\",session=\"-7\"} 0\naeron_recorder_gap_bytes{recorder=\"a-1\",image=\"12\",stream=\"-5\",session=\"8\"} 250\n",
    "# TYPE aeron_recorder_publication_hole_bytes gauge\naeron_recorder_publication_hole_bytes{recorder=\"a-1\",stream=\"1001\",session=\"-7\"} 0\naeron_recorder_publication_hole_bytes{recorder=\"a-1\",stream=\"-5\",session=\"8\"} 768\n",
    "aeron_recorder_sends{recorder=\"a-1\"} 1\n# HELP aeron_recorder_sent_datagrams_total Datagrams of recordings that were sent.\n# TYPE aeron_recorder_sent_datagrams_total counter\naeron_recorder_sent_datagrams_total{recorder=\"a-1\"} 41\n# HELP aeron_recorder_sent_bytes_total Bytes of such datagrams.\n# TYPE aeron_recorder_sent_bytes_total counter\naeron_recorder_sent_bytes_total{recorder=\"a-1\"} 42\n# HELP aeron_recorder_repeated_datagrams_total Datagrams of recordings that were repeated.\n# TYPE aeron_recorder_repeated_datagrams_total counter\naeron_recorder_repeated_datagrams_total{recorder=\"a-1\"} 43\n# HELP aeron_recorder_naks_received_total NAK frames of receivers that came.\n# TYPE aeron_recorder_naks_received_total counter\naeron_recorder_naks_received_total{recorder=\"a-1\"} 44\n# HELP aeron_recorder_status_messages_received_total Status messages of receivers that came.\n# TYPE aeron_recorder_status_messages_received_total counter\naeron_recorder_status_messages_received_total{recorder=\"a-1\"} 45\n# HELP aeron_recorder_foreign_feedback_total Datagrams that came and count for no sending.\n# TYPE aeron_recorder_foreign_feedback_total counter\naeron_recorder_foreign_feedback_total{recorder=\"a-1\"} 46\n# HELP aeron_recorder_sender_position_bytes Up to where a recording was sent.\n# TYPE aeron_recorder_sender_position_bytes gauge\naeron_recorder_sender_position_bytes{recorder=\"a-1\",send=\"2\",recording=\"3\",stream=\"1001\",session=\"-7\"} 8192\n",
    "# TYPE aeron_recorder_sender_limit_bytes gauge\naeron_recorder_sender_limit_bytes{recorder=\"a-1\",send=\"2\",recording=\"3\",stream=\"1001\",session=\"-7\"} 139264\n# HELP aeron_recorder_consumed_by_receiver_bytes Up to where a receiver has consumed a recording.\n# TYPE aeron_recorder_consumed_by_receiver_bytes gauge\naeron_recorder_consumed_by_receiver_bytes{recorder=\"a-1\",send=\"2\",recording=\"3\",stream=\"1001\",session=\"-7\"} 4096\n",
];

/// Measures of a server with no recording, replay, image or sending.
fn of_none(alloc: Global) -> Measures {
    Measures {
        archive: ArchiveMeasures {
            is_open: true,
            is_broken: false,
            is_full: false,
            entries: 12,
            limit: 1_048_576,
            checkpoints: 7,
            refused_checkpoints: 1,
        },
        recorder: RecorderMeasures {
            bytes: u64::MAX,
            frames: 2,
            settles: settles(),
        },
        datagrams: DATAGRAMS,
        resumes: RESUMES,
        places: PLACES,
        clients: CLIENTS,
        recordings: Vec::new(alloc),
        replays: Vec::new(alloc),
        images: Vec::new(alloc),
        sending: SENDING,
        sends: Vec::new(alloc),
    }
}

const DATAGRAMS: DatagramMeasures = DatagramMeasures {
    received: 1,
    dropped: 2,
    lost: 3,
    repeats: 4,
    naks: 5,
    status_messages: 6,
    images: 7,
};

const RESUMES: ResumeMeasures = ResumeMeasures {
    holes: 8,
    hole_bytes: 9,
    resumed: 10,
    resumed_bytes: 11,
    resuming: 12,
};

const PLACES: PlaceMeasures = PlaceMeasures {
    foreign: 13,
    refused: RefusedMeasures {
        places: 14,
        recordings: 15,
        starts: 16,
        history: 17,
        broken: 18,
        memory: 19,
        other: 20,
    },
    recorded: 21,
    waiting: 22,
    other: 23,
    places: 24,
    recordings: 25,
    limit: 26,
};

const CLIENTS: ClientMeasures = ClientMeasures {
    connections: 1,
    clients: 4,
    places: 8,
    polls: 2,
    replays: 3,
};

const SENDING: SendsMeasures = SendsMeasures {
    live: 1,
    datagrams: 41,
    bytes: 42,
    repeats: 43,
    naks: 44,
    status_messages: 45,
    foreign: 46,
};

/// Adds a recording, a replay, two images and a sending.
fn add_each(measures: &mut Measures) -> Result<(), AllocError> {
    measures.recordings.push(RecordingMeasures {
        recording: 3,
        stream_id: 1_001,
        session_id: -7,
        recorded: 65_472,
    })?;
    measures.replays.push(ReplayMeasures {
        replay: 5,
        recording: 3,
        next: 4_096,
    })?;
    measures.images.push(image(0, 1_001, -7, 65_536, 0))?;
    measures.images.push(image(12, -5, 8, 0, 250_000))?;
    Ok(
        measures.sends.push(SendMeasures {
            send: 2,
            recording: 3,
            stream_id: 1_001,
            session_id: -7,
            position: 8_192,
            limit: 139_264,
            consumed: 4_096,
        })?,
    )
}

/// The text of these.
fn printed(alloc: Global) -> Result<String, AllocError> {
    let about = RecorderAbout {
        name: "a-1",
        version: "0.1.0",
        catalogue: "2",
        started_micros: 1_764_405_696_123_000,
    };
    let mut measures = of_none(alloc);
    add_each(&mut measures)?;
    print_metrics(alloc, &about, &measures)
}

/// Settles of 50, 51, 251, 5,000,000 and 55,999,851 microseconds.
fn settles() -> SettleTimes {
    let mut settles = SettleTimes::new();
    for micros in [50, 51, 251, 5_000_000, 55_999_851] {
        settles.note(micros);
    }
    settles
}

fn image(
    image: u64,
    stream_id: i32,
    session_id: i32,
    rebuilt: i64,
    gap_micros: u64,
) -> ImageMeasures {
    ImageMeasures {
        image,
        stream_id,
        session_id,
        rebuilt,
        consumed: rebuilt.saturating_sub(32),
        gap_micros,
        gap_bytes: gap_micros / 1_000,
        hole_bytes: image.saturating_mul(64),
        datagrams: image.saturating_add(1),
        naks: 2,
        lost: 3,
        silent_micros: 1_500_000,
    }
}

/// A server's measures are printed in the text format, with their types and labels.
#[test]
fn a_server_is_measured(rt: HostRuntime) -> Result<(), Fail> {
    let text = printed(rt.alloc())?;
    assert!(rt; text.as_str().starts_with(FIRST_LINES));
    for line in LINES {
        assert!(rt; text.as_str().contains(line), "{line}");
    }
    Ok(())
}
