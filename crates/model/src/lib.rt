// What recipes and sheets mean, and the law that joins them: definitions and proofs, no code.
//
// `specs/History` says what is live after a history of calls, `Answers` what the calls answer,
// `Sheet` what a sheet is, `Reading` how one is read, and `Law` that sheets identify recipes. The
// contracts of the crates above speak in these words, and cite the law that is proved here.
#![tactic(auto)]
