// What a step leaves: the scene, or why the run stops.
use scene::Scene;
use script::Reason;

pub type Turn = Result<Scene, Reason>;
