//! Jobs on worked rows, with ample memory: the plain opening of one warehouse, ten customers a district
//! and a hundred items. Each test ends with the settlement of the purses that came back.
mod errands;
mod gates;
mod held;
mod left;
mod posted;
mod reclaims;
mod reposts;
mod rounds;
mod two_jobs;
