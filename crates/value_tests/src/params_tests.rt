use params::{Blend, Module, Params, blend_of_json, blend_to_json, of_json, to_json};
use serde_json::Value;
use std::test::Fail;

fn may_be_shared<T: Send + Sync>(_value: &T) -> bool {
    true
}

#[test]
fn settings_and_blends_may_be_shared_by_threads(rt: HostRuntime) {
    assert!(rt; may_be_shared(&Params::Demosaic));
    assert!(rt; may_be_shared(&None::<Blend>));
}

/// Settings of each module as they are written.
const SETTINGS: [(Module, &str); 10] = [
    (Module::RawPrepare, r#"{"black":[64,65,66],"white":1023}"#),
    (Module::Temperature, r#"{"mul":[8192,4096,6144]}"#),
    (Module::Demosaic, "{}"),
    (
        Module::Orientation,
        r#"{"flip_x":false,"flip_y":true,"swap":true}"#,
    ),
    (Module::Crop, r#"{"bottom":4,"left":1,"right":3,"top":2}"#),
    (Module::Exposure, r#"{"black":-1,"gain":65536,"stops":-4}"#),
    (
        Module::ChannelMixer,
        r#"{"rows":[[4096,-4096,0],[0,4096,0],[2048,2048,1]]}"#,
    ),
    (
        Module::ToneCurve,
        r#"{"blue":[[100,200],[300,100]],"green":[[0,0],[1,1]],"red":[[0,9],[7,5]]}"#,
    ),
    (Module::BoxBlur, r#"{"radius":64}"#),
    (Module::Sharpen, r#"{"amount":16384,"radius":1}"#),
];

#[test]
fn settings_are_read_and_written_again(rt: HostRuntime) -> Result<(), Fail> {
    let alloc = rt.alloc();
    for (module, text) in SETTINGS {
        let params = of_json(
            alloc,
            module,
            module.newest(),
            &Value::from_str(alloc, text)?,
        )?;
        let written = to_json(alloc, &params)?.to_string(alloc)?;
        assert!(rt; written.as_str() == text);
    }
    Ok(())
}

/// Blends as they are written.
const BLENDS: [&str; 3] = [
    "null",
    r#"{"mask":{"a":4,"b":5,"cx":61440,"cy":38230,"feather":65536,"shape":"ellipse","ux":1,"uy":0},"mode":"difference","opacity":32768}"#,
    r#"{"mask":{"ax":1,"ay":2,"dx":-3,"dy":4,"shape":"gradient","slope":5},"mode":"normal","opacity":65536}"#,
];

#[test]
fn blends_are_read_and_written_again(rt: HostRuntime) -> Result<(), Fail> {
    let alloc = rt.alloc();
    for text in BLENDS {
        let blend = blend_of_json(&Value::from_str(alloc, text)?)?;
        let written = blend_to_json(alloc, blend.as_ref())?.to_string(alloc)?;
        assert!(rt; written.as_str() == text);
    }
    Ok(())
}
